use std::process::Abort;
use targets::is_target_name_ip_address;

// Four numbers, and what only looks like them.
const IPV4: [(&str, bool); 45] = [
    ("0.0.0.0", true),
    ("255.255.255.255", true),
    ("127.0.0.1", true),
    ("10.0.0.1", true),
    ("1.2.3.4", true),
    ("192.168.100.200", true),
    ("9.99.199.249", true),
    ("250.255.1.0", true),
    ("", false),
    ("host", false),
    ("256.0.0.1", false),
    ("0.0.0.256", false),
    ("1.2.3.260", false),
    ("1.300.3.4", false),
    ("1.2.3.999", false),
    ("00.0.0.0", false),
    ("01.2.3.4", false),
    ("10.0.0.01", false),
    ("1.2.3.00", false),
    ("1.2.3.001", false),
    ("1.02.3.4", false),
    ("1", false),
    ("1.2", false),
    ("1.2.3", false),
    ("1.2.3.4.5", false),
    (".1.2.3.4", false),
    ("1.2.3.4.", false),
    ("1.2.3.", false),
    ("1..2.3", false),
    ("1.2..4", false),
    ("...", false),
    (".", false),
    (" 1.2.3.4", false),
    ("1.2.3.4 ", false),
    ("1. 2.3.4", false),
    ("1.2.3.a", false),
    ("1.2.3.-4", false),
    ("+1.2.3.4", false),
    ("0x1.2.3.4", false),
    ("1.2.3.1234", false),
    ("1.2.3.0000", false),
    ("1,2,3,4", false),
    ("1.2.3.4:80", false),
    ("1.2.3.:", false),
    ("/.2.3.4", false),
];

// Groups with and without `::`, and what only looks like them.
const IPV6: [(&str, bool); 89] = [
    ("::", true),
    ("::1", true),
    ("1::", true),
    ("0::0", true),
    ("1:2:3:4:5:6:7:8", true),
    ("fe80::1", true),
    ("FE80::ABCD", true),
    ("aAbB::cDeF", true),
    ("2001:db8::ff00:42:8329", true),
    ("0000:0000:0000:0000:0000:0000:0000:0001", true),
    ("ffff:ffff:ffff:ffff:ffff:ffff:ffff:ffff", true),
    ("a:b:c:d:e:f:0:1", true),
    ("1:2:3:4:5:6:7::", true),
    ("::2:3:4:5:6:7:8", true),
    ("1::3:4:5:6:7:8", true),
    ("1:2:3::5:6:7:8", true),
    ("1:2:3:4:5:6::8", true),
    ("1::8", true),
    ("::1.2.3.4", true),
    ("::ffff:10.0.0.1", true),
    ("64:ff9b::192.0.2.33", true),
    ("1:2:3:4:5:6:1.2.3.4", true),
    ("1:2:3:4:5::1.2.3.4", true),
    ("::3:4:5:6:7:1.2.3.4", true),
    ("1::1.2.3.4", true),
    ("1:2:3:4:5:6:7", false),
    ("1:2:3:4:5:6:7:8:9", false),
    ("1:2:3:4:5:6:7::8", false),
    ("::1:2:3:4:5:6:7:8", false),
    ("1:2:3:4:5:6:7:8::", false),
    ("1::2:3:4:5:6:7:8", false),
    (":", false),
    (":::", false),
    ("::::", false),
    ("1:::2", false),
    (":1", false),
    ("1:", false),
    (":1:2:3:4:5:6:7", false),
    ("1:2:3:4:5:6:7:", false),
    ("1:2:3:4:5:6:7:8:", false),
    (":1:2:3:4:5:6:7:8", false),
    (":1::2", false),
    ("1::2:", false),
    ("1::2::3", false),
    ("::1::", false),
    ("1::2:::", false),
    ("1.2.3.4::", false),
    ("1.2.3.4::1", false),
    ("1:1.2.3.4::", false),
    ("1:1.2.3.4::2", false),
    ("::1.2.3.4:5", false),
    ("::1.2.3.4::", false),
    ("1:2:3:4:5:1.2.3.4:8", false),
    ("1.2.3.4:1:2:3:4:5:6", false),
    ("::1.2.3.4:1.2.3.4", false),
    ("1:2:3:4:5:6:7:1.2.3.4", false),
    ("1:2:3:4:5:1.2.3.4", false),
    ("1:2:3:4:5:6::1.2.3.4", false),
    ("::2:3:4:5:6:7:1.2.3.4", false),
    ("::1.2.3", false),
    ("::1.2.3.256", false),
    ("::01.2.3.4", false),
    ("::1.2.3.4.5", false),
    ("::1.2.3.4.", false),
    ("12345::", false),
    ("::12345", false),
    ("00001::", false),
    ("1:2:3:4:5:6:7:00008", false),
    ("g::1", false),
    ("1:2:3:4:5:6:7:g", false),
    ("::G", false),
    ("::@", false),
    ("::`", false),
    ("::-1", false),
    ("::+1", false),
    ("::0x1", false),
    ("[::1]", false),
    ("[::1", false),
    ("::1]", false),
    ("fe80::1%eth0", false),
    ("fe80::1%1", false),
    ("::ffff:1.2.3.4%0", false),
    ("%::1", false),
    (" ::1", false),
    ("::1 ", false),
    ("1 ::2", false),
    (":: ", false),
    (": :", false),
    ("1:2:3:4:5:6:7:8 ", false),
];

// Only what stands behind the last slash counts.
const TARGETS: [(&str, bool); 25] = [
    ("HTTP/10.0.0.1", true),
    ("HTTP/::1", true),
    ("a/b/::1", true),
    ("/10.0.0.1", true),
    ("//::", true),
    ("ä/10.0.0.1", true),
    ("10.0.0.01/10.0.0.1", true),
    ("10.0.0.1/", false),
    ("10.0.0.1/host", false),
    ("/", false),
    ("::1/64", false),
    ("::1/", false),
    ("HTTP/host", false),
    ("host.example.com", false),
    ("HTTP/10.0.0.1/x", false),
    ("HTTP/10.0.0.01", false),
    ("HTTP/[::1]", false),
    ("HTTP/10.0.0.1:80", false),
    ("HTTP\\10.0.0.1", false),
    ("HTTP/ 10.0.0.1", false),
    ("1.2.3.4\0", false),
    ("::1\n", false),
    ("1.2.3.٤", false),
    ("::１", false),
    ("10。0。0。1", false),
];

// Each text is named by an address or not, as the row says.
fn texts_are(rt: &impl Abort, rows: &[(&str, bool)]) {
    for (text, wanted) in rows {
        assert_eq!(rt; is_target_name_ip_address(text.as_bytes()), *wanted);
    }
}

// The same of bytes that are no text.
fn bytes_are(rt: &impl Abort, rows: &[(&[u8], bool)]) {
    for (bytes, wanted) in rows {
        assert_eq!(rt; is_target_name_ip_address(bytes), *wanted);
    }
}

#[test]
fn texts(rt: HostRuntime) {
    texts_are(&rt, &IPV4);
    texts_are(&rt, &IPV6);
    texts_are(&rt, &TARGETS);
}

#[test]
fn bytes(rt: HostRuntime) {
    bytes_are(
        &rt,
        &[
            (&[0x31, 0x30, 0x2e, 0x30, 0x2e, 0x30, 0x2e, 0xb9], false),
            (&[0xb1, 0x2e, 0x30, 0x2e, 0x30, 0x2e, 0x31], false),
            (&[0x3a, 0x3a, 0xff], false),
            (&[0xff], false),
            (&[0x3a, 0x3a, 0x31, 0x80], false),
            (
                &[0xff, 0x2f, 0x31, 0x30, 0x2e, 0x30, 0x2e, 0x30, 0x2e, 0x31],
                true,
            ),
            (
                &[0x31, 0x30, 0x2e, 0x30, 0x2e, 0x30, 0x2e, 0x31, 0x2f, 0xff],
                false,
            ),
            (&[0xae, 0xae, 0xae, 0xae], false),
        ],
    );
}
