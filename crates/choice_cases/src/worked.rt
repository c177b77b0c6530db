use worked_examples::worked_examples;

#[test]
fn the_code_answers_as_the_examples_say(rt: HostRuntime) {
    let answers = worked_examples();
    assert!(rt;
        !answers.empty_list.ntlm && !answers.empty_list.kerberos && !answers.empty_list.pku2u
    );
    assert!(rt; answers.kerberos_alone.kerberos && !answers.kerberos_alone.ntlm);
    assert!(rt; answers.behind_slash && answers.zeros && answers.seven_groups);
    assert!(rt; !answers.zero_in_front && !answers.brackets);
    assert!(rt; answers.shortest && !answers.long_length && !answers.byte_behind);
}
