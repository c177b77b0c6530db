use crate::refusals::{INTERNAL, NO_CREDENTIALS, UNKNOWN};
use crate::spending::{client_plan, server_plan};
use config::Plan;
use packages::{PackageListConfig, Protocol};
use sspi::Fault;
use std::process::Abort;

type Planned = Result<Plan, Fault>;

const fn plan(running: Protocol, ntlm: bool, kerberos: bool, pku2u: bool) -> Planned {
    Ok(Plan {
        running,
        open: PackageListConfig {
            ntlm,
            kerberos,
            pku2u,
        },
        max_work: 16384,
    })
}

// A word and a list, and what comes of them for either role.
fn alike(rt: &impl Abort, rows: &[(&str, Option<&[u8]>, Planned)]) {
    for (word, list, wanted) in rows {
        assert_eq!(rt; client_plan(word, *list), *wanted);
        assert_eq!(rt; server_plan(word, *list), *wanted);
    }
}

// The same where the roles differ: for a client, and for a server.
fn apart(rt: &impl Abort, rows: &[(&str, Option<&[u8]>, Planned, Planned)]) {
    for (word, list, for_client, for_server) in rows {
        assert_eq!(rt; client_plan(word, *list), *for_client);
        assert_eq!(rt; server_plan(word, *list), *for_server);
    }
}

// Drafts of both roles, with all packages open.
#[test]
fn made(rt: HostRuntime) {
    alike(
        &rt,
        &[
            ("Kerberos", None, plan(Protocol::Kerberos, true, true, true)),
            ("NTLM", None, plan(Protocol::Ntlm, true, true, true)),
            ("PKU2U", None, plan(Protocol::Pku2u, true, true, true)),
        ],
    );
}

// The configured protocol is closed, or open besides others that are closed.
#[test]
fn closed_in_part(rt: HostRuntime) {
    alike(
        &rt,
        &[
            (
                "Kerberos",
                Some(b"!kerberos"),
                plan(Protocol::Ntlm, true, false, true),
            ),
            (
                "PKU2U",
                Some(b"!pku2u"),
                plan(Protocol::Ntlm, true, true, false),
            ),
            (
                "PKU2U",
                Some(b"ntlm"),
                plan(Protocol::Ntlm, true, false, false),
            ),
            (
                "Kerberos",
                Some(b"kerberos"),
                plan(Protocol::Kerberos, false, true, false),
            ),
            (
                "NTLM",
                Some(b"!ntlm,ntlm"),
                plan(Protocol::Ntlm, true, false, false),
            ),
            (
                "Kerberos",
                Some(b"PKU2U"),
                plan(Protocol::Ntlm, false, false, true),
            ),
            (
                "PKU2U",
                Some(b"!ntlm,!pku2u"),
                plan(Protocol::Ntlm, false, true, false),
            ),
        ],
    );
}

// Closed NTLM: a client goes on with Kerberos, a server refuses.
#[test]
fn closed_ntlm(rt: HostRuntime) {
    apart(
        &rt,
        &[
            (
                "NTLM",
                Some(b"!ntlm"),
                plan(Protocol::Kerberos, false, true, true),
                Err(INTERNAL),
            ),
            (
                "NTLM",
                Some(b"kerberos"),
                plan(Protocol::Kerberos, false, true, false),
                Err(INTERNAL),
            ),
            (
                "NTLM",
                Some(b"pku2u"),
                plan(Protocol::Kerberos, false, false, true),
                Err(INTERNAL),
            ),
            (
                "NTLM",
                Some(b"!ntlm,!kerberos"),
                plan(Protocol::Kerberos, false, false, true),
                Err(INTERNAL),
            ),
        ],
    );
}

// No package is open.
#[test]
fn nothing_open(rt: HostRuntime) {
    alike(
        &rt,
        &[
            ("Kerberos", Some(b""), Err(NO_CREDENTIALS)),
            ("NTLM", Some(b""), Err(NO_CREDENTIALS)),
            (
                "PKU2U",
                Some(b"!ntlm,!kerberos,!pku2u"),
                Err(NO_CREDENTIALS),
            ),
            ("NTLM", Some(b"!ntlm,negotiate"), Err(NO_CREDENTIALS)),
            ("Kerberos", Some(b" kerberos"), Err(NO_CREDENTIALS)),
        ],
    );
}

// An unknown word is refused before all else.
#[test]
fn unknown_words(rt: HostRuntime) {
    alike(
        &rt,
        &[
            ("ntlm", None, Err(UNKNOWN)),
            ("Negotiate", Some(b""), Err(UNKNOWN)),
            ("", Some(b"!ntlm,!kerberos,!pku2u"), Err(UNKNOWN)),
            ("kerberos", Some(b"kerberos"), Err(UNKNOWN)),
            ("ntlm", Some(b"!ntlm"), Err(UNKNOWN)),
        ],
    );
}
