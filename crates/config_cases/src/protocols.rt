use crate::refusals::{INTERNAL, NO_CREDENTIALS, UNKNOWN};
use packages::{PackageListConfig, Protocol, filter_protocol};
use sspi::Fault;
use std::process::Abort;

// Each word gives the protocol beside it, or is unknown.
#[test]
fn words(rt: HostRuntime) {
    let rows = [
        ("Kerberos", Ok(Protocol::Kerberos)),
        ("NTLM", Ok(Protocol::Ntlm)),
        ("PKU2U", Ok(Protocol::Pku2u)),
        ("kerberos", Err(UNKNOWN)),
        ("KERBEROS", Err(UNKNOWN)),
        ("ntlm", Err(UNKNOWN)),
        ("Ntlm", Err(UNKNOWN)),
        ("pku2u", Err(UNKNOWN)),
        ("Pku2u", Err(UNKNOWN)),
        ("", Err(UNKNOWN)),
        (" NTLM", Err(UNKNOWN)),
        ("NTLM ", Err(UNKNOWN)),
        ("Negotiate", Err(UNKNOWN)),
        ("NTLM,Kerberos", Err(UNKNOWN)),
    ];
    for (word, want) in rows {
        assert_eq!(rt; word.parse::<Protocol>(), want);
    }
}

// With these open, NTLM, Kerberos, PKU2U, a client runs the first from now on, and a server the second.
fn runs(
    rt: &impl Abort,
    running: Protocol,
    rows: &[(
        (bool, bool, bool),
        Result<Protocol, Fault>,
        Result<Protocol, Fault>,
    )],
) {
    for ((ntlm, kerberos, pku2u), client, server) in rows {
        let open = PackageListConfig {
            ntlm: *ntlm,
            kerberos: *kerberos,
            pku2u: *pku2u,
        };
        assert_eq!(rt; filter_protocol(running, open, true), *client);
        assert_eq!(rt; filter_protocol(running, open, false), *server);
    }
}

#[test]
fn running_kerberos(rt: HostRuntime) {
    runs(
        &rt,
        Protocol::Kerberos,
        &[
            (
                (false, false, false),
                Err(NO_CREDENTIALS),
                Err(NO_CREDENTIALS),
            ),
            ((false, false, true), Ok(Protocol::Ntlm), Ok(Protocol::Ntlm)),
            (
                (false, true, false),
                Ok(Protocol::Kerberos),
                Ok(Protocol::Kerberos),
            ),
            (
                (false, true, true),
                Ok(Protocol::Kerberos),
                Ok(Protocol::Kerberos),
            ),
            ((true, false, false), Ok(Protocol::Ntlm), Ok(Protocol::Ntlm)),
            ((true, false, true), Ok(Protocol::Ntlm), Ok(Protocol::Ntlm)),
            (
                (true, true, false),
                Ok(Protocol::Kerberos),
                Ok(Protocol::Kerberos),
            ),
            (
                (true, true, true),
                Ok(Protocol::Kerberos),
                Ok(Protocol::Kerberos),
            ),
        ],
    );
}

#[test]
fn running_ntlm(rt: HostRuntime) {
    runs(
        &rt,
        Protocol::Ntlm,
        &[
            (
                (false, false, false),
                Err(NO_CREDENTIALS),
                Err(NO_CREDENTIALS),
            ),
            ((false, false, true), Ok(Protocol::Kerberos), Err(INTERNAL)),
            ((false, true, false), Ok(Protocol::Kerberos), Err(INTERNAL)),
            ((false, true, true), Ok(Protocol::Kerberos), Err(INTERNAL)),
            ((true, false, false), Ok(Protocol::Ntlm), Ok(Protocol::Ntlm)),
            ((true, false, true), Ok(Protocol::Ntlm), Ok(Protocol::Ntlm)),
            ((true, true, false), Ok(Protocol::Ntlm), Ok(Protocol::Ntlm)),
            ((true, true, true), Ok(Protocol::Ntlm), Ok(Protocol::Ntlm)),
        ],
    );
}

#[test]
fn running_pku2u(rt: HostRuntime) {
    runs(
        &rt,
        Protocol::Pku2u,
        &[
            (
                (false, false, false),
                Err(NO_CREDENTIALS),
                Err(NO_CREDENTIALS),
            ),
            (
                (false, false, true),
                Ok(Protocol::Pku2u),
                Ok(Protocol::Pku2u),
            ),
            ((false, true, false), Ok(Protocol::Ntlm), Ok(Protocol::Ntlm)),
            (
                (false, true, true),
                Ok(Protocol::Pku2u),
                Ok(Protocol::Pku2u),
            ),
            ((true, false, false), Ok(Protocol::Ntlm), Ok(Protocol::Ntlm)),
            (
                (true, false, true),
                Ok(Protocol::Pku2u),
                Ok(Protocol::Pku2u),
            ),
            ((true, true, false), Ok(Protocol::Ntlm), Ok(Protocol::Ntlm)),
            ((true, true, true), Ok(Protocol::Pku2u), Ok(Protocol::Pku2u)),
        ],
    );
}
