use choice::{
    Agreed, leads_to_ntlm, negotiate_mech_type, negotiate_protocol_by_mech_type, runs_after,
};
use names::Mech;
use packages::{PackageListConfig, Protocol};
use sspi::{ErrorKind, Fault, Layer};

const NO_MECHANISM: Fault = Fault {
    kind: ErrorKind::InvalidToken,
    layer: Layer::Negotiation,
};

const ILLEGAL: Fault = Fault {
    kind: ErrorKind::InvalidToken,
    layer: Layer::Token,
};

const ALL: PackageListConfig = PackageListConfig {
    ntlm: true,
    kerberos: true,
    pku2u: true,
};

// ms_krb5, krb5, NTLM
const OFFER: &[u8] =
    b"\x30\x22\x06\x09\x2a\x86\x48\x82\xf7\x12\x01\x02\x02\x06\x09\x2a\x86\x48\x86\xf7\x12\x01\x02\x02\x06\x0a\x2b\x06\x01\x04\x01\x82\x37\x02\x02\x0a";

// krb5, ms_krb5
const TURNED: &[u8] =
    b"\x30\x16\x06\x09\x2a\x86\x48\x86\xf7\x12\x01\x02\x02\x06\x09\x2a\x86\x48\x82\xf7\x12\x01\x02\x02";

// an unknown one, NTLM, NTLM
const TWICE: &[u8] =
    b"\x30\x1b\x06\x01\x2b\x06\x0a\x2b\x06\x01\x04\x01\x82\x37\x02\x02\x0a\x06\x0a\x2b\x06\x01\x04\x01\x82\x37\x02\x02\x0a";

#[test]
fn choices(rt: HostRuntime) {
    let no_ntlm = PackageListConfig { ntlm: false, ..ALL };
    let no_kerberos = PackageListConfig {
        kerberos: false,
        ..ALL
    };
    let rows = [
        (OFFER, ALL, Protocol::Kerberos, Ok((1, 0))),
        (OFFER, ALL, Protocol::Ntlm, Ok((3, 2))),
        (OFFER, ALL, Protocol::Pku2u, Ok((3, 2))),
        (OFFER, no_ntlm, Protocol::Kerberos, Ok((1, 0))),
        (OFFER, no_ntlm, Protocol::Ntlm, Err(NO_MECHANISM)),
        (OFFER, no_kerberos, Protocol::Kerberos, Ok((3, 2))),
        (TURNED, ALL, Protocol::Kerberos, Ok((1, 1))),
        (TURNED, ALL, Protocol::Ntlm, Err(NO_MECHANISM)),
        (TWICE, ALL, Protocol::Kerberos, Ok((3, 1))),
        (TWICE, no_ntlm, Protocol::Kerberos, Err(NO_MECHANISM)),
        (b"\x30\x00", ALL, Protocol::Kerberos, Err(NO_MECHANISM)),
        (b"\x30\x01", ALL, Protocol::Kerberos, Err(ILLEGAL)),
        (b"", ALL, Protocol::Kerberos, Err(ILLEGAL)),
    ];
    for (list, enabled, running, want) in rows {
        assert_eq!(rt; negotiate_mech_type(list, enabled, running), want);
    }
}

#[test]
fn what_runs_after(rt: HostRuntime) {
    assert_eq!(rt; runs_after(3, Protocol::Kerberos), Protocol::Ntlm);
    assert_eq!(rt; runs_after(3, Protocol::Pku2u), Protocol::Ntlm);
    assert_eq!(rt; runs_after(1, Protocol::Kerberos), Protocol::Kerberos);
}

#[test]
fn what_an_initiator_agrees_to(rt: HostRuntime) {
    let kerberos = Agreed {
        enabled: PackageListConfig { ntlm: false, ..ALL },
        running: Protocol::Kerberos,
        mic_needed: false,
    };
    let ntlm = Agreed {
        enabled: PackageListConfig {
            kerberos: false,
            ..ALL
        },
        running: Protocol::Ntlm,
        mic_needed: true,
    };
    let owed = Agreed {
        mic_needed: true,
        ..kerberos
    };
    let guest = Agreed {
        mic_needed: false,
        ..ntlm
    };
    let rows = [
        (Mech::MsKrb5, Protocol::Kerberos, false, false, Ok(kerberos)),
        (Mech::Krb5, Protocol::Kerberos, true, false, Ok(owed)),
        (Mech::Krb5, Protocol::Ntlm, false, true, Ok(owed)),
        (Mech::Ntlm, Protocol::Ntlm, false, false, Ok(ntlm)),
        (Mech::Ntlm, Protocol::Kerberos, true, true, Ok(guest)),
        (
            Mech::Spnego,
            Protocol::Kerberos,
            true,
            true,
            Err(NO_MECHANISM),
        ),
    ];
    for (mech, running, mic_needed, is_guest, want) in rows {
        assert_eq!(rt;
            negotiate_protocol_by_mech_type(mech.oid(), ALL, running, mic_needed, is_guest),
            want
        );
    }
}

#[test]
fn kinds_that_lead_to_ntlm(rt: HostRuntime) {
    let rows = [
        (ErrorKind::TimeSkew, true),
        (ErrorKind::NoAuthenticatingAuthority, true),
        (ErrorKind::CertificateUnknown, true),
        (ErrorKind::UnknownCredentials, true),
        (ErrorKind::NoCredentials, false),
        (ErrorKind::Unknown, false),
    ];
    for (kind, want) in rows {
        assert_eq!(rt; leads_to_ntlm(kind), want);
    }
}
