use packages::PackageListConfig;
use std::process::Abort;

// Each list leaves these open: NTLM, Kerberos, PKU2U.
fn leaves(rt: &impl Abort, rows: &[(Option<&[u8]>, (bool, bool, bool))]) {
    for (list, (ntlm, kerberos, pku2u)) in rows {
        let config = PackageListConfig::parse(*list);
        assert_eq!(rt;
            (config.ntlm, config.kerberos, config.pku2u),
            (*ntlm, *kerberos, *pku2u)
        );
    }
}

// No list, and lists of one entry.
#[test]
fn one_entry(rt: HostRuntime) {
    leaves(
        &rt,
        &[
            (None, (true, true, true)),
            (Some(b""), (false, false, false)),
            (Some(b"ntlm"), (true, false, false)),
            (Some(b"kerberos"), (false, true, false)),
            (Some(b"pku2u"), (false, false, true)),
            (Some(b"!ntlm"), (false, true, true)),
            (Some(b"!kerberos"), (true, false, true)),
            (Some(b"!pku2u"), (true, true, false)),
            (Some(b"!"), (true, true, true)),
            (Some(b"negotiate"), (false, false, false)),
            (Some(b"!negotiate"), (true, true, true)),
            (Some(b"ntlm2"), (false, false, false)),
            (Some(b"ntl"), (false, false, false)),
        ],
    );
}

// What the order of entries does.
#[test]
fn order(rt: HostRuntime) {
    leaves(
        &rt,
        &[
            (Some(b"!ntlm,kerberos"), (false, true, false)),
            (Some(b"kerberos,!ntlm"), (false, true, false)),
            (Some(b"ntlm,!ntlm"), (false, false, false)),
            (Some(b"!ntlm,ntlm"), (true, false, false)),
            (Some(b"!ntlm,!kerberos"), (false, false, true)),
            (Some(b"!ntlm,!kerberos,!pku2u"), (false, false, false)),
            (Some(b"ntlm,kerberos,pku2u"), (true, true, true)),
            (Some(b"ntlm,!kerberos,pku2u"), (true, false, true)),
            (Some(b"!kerberos,ntlm,!ntlm,pku2u"), (false, false, true)),
            (Some(b"ntlm,ntlm"), (true, false, false)),
            (Some(b"!ntlm,!ntlm"), (false, true, true)),
            (Some(b"!ntlm,ntlm,!ntlm"), (false, false, false)),
            (Some(b"ntlm,!ntlm,ntlm"), (true, false, false)),
            (Some(b"!kerberos,negotiate"), (false, false, false)),
            (Some(b"!pku2u,!negotiate"), (true, true, false)),
        ],
    );
}

// Capital letters count as small ones, and bytes that are no letters of ASCII match nothing.
#[test]
fn letters(rt: HostRuntime) {
    leaves(
        &rt,
        &[
            (Some(b"NTLM"), (true, false, false)),
            (Some(b"Kerberos"), (false, true, false)),
            (Some(b"PkU2u"), (false, false, true)),
            (Some(b"!KERBEROS"), (true, false, true)),
            (Some(b"NtLm,!nTlM"), (false, false, false)),
            (Some(b"\xe2\x84\xaaerberos"), (false, false, false)),
            (Some(b"!\xe2\x84\xaaerberos"), (true, true, true)),
            (Some(b"ntlm\xc3\xa9"), (false, false, false)),
            (Some(b"!\xff,\x80"), (false, false, false)),
            (Some(b"NTLm"), (true, false, false)),
            (Some(b"\x0entlm"), (false, false, false)),
            (Some(b"kerbero\xf3"), (false, false, false)),
        ],
    );
}

// Nothing is trimmed, and only one `!` is taken off.
#[test]
fn separators(rt: HostRuntime) {
    leaves(
        &rt,
        &[
            (Some(b","), (false, false, false)),
            (Some(b"ntlm,"), (true, false, false)),
            (Some(b",ntlm"), (true, false, false)),
            (Some(b"!ntlm,"), (false, false, false)),
            (Some(b" ntlm"), (false, false, false)),
            (Some(b"ntlm "), (false, false, false)),
            (Some(b"ntlm, kerberos"), (true, false, false)),
            (Some(b"!ntlm, kerberos"), (false, false, false)),
            (Some(b"! ntlm"), (true, true, true)),
            (Some(b" !ntlm"), (false, false, false)),
            (Some(b"!!ntlm"), (true, true, true)),
            (Some(b"!!ntlm,!kerberos"), (true, false, true)),
            (Some(b"ntlm;kerberos"), (false, false, false)),
            (Some(b"ntlm\x09kerberos"), (false, false, false)),
            (Some(b"!,!,!"), (true, true, true)),
            (Some(b"!ntlm,,kerberos"), (false, true, false)),
            (Some(b"!ntlm,,"), (false, false, false)),
        ],
    );
}
