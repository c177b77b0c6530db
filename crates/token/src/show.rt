use der::INVALID;
use diagnosis::{Hex, explain};
use mech_types::MechTypeList;
use names::{Mech, NegState};
use spnego::{NegTokenInit, NegTokenTarg};
use sspi::Fault;
use std::fmt::Display;
use std::io;

// The length of the longest token that is read.
const LONGEST: usize = 65535;

// Prints what the token holds, or why it is refused.
pub fn show(rt: &impl Print, number: u64, token: &[u8]) -> io::Result<()> {
    if token.len() > LONGEST {
        refused(rt, number, INVALID)?;
        return println!(rt; "longer than {LONGEST} bytes");
    }
    if let [0x60, ..] = token {
        match NegTokenInit::read(token) {
            Ok(read) => init(rt, number, token.len(), read),
            Err(fault) => explained(rt, number, token, fault),
        }
    } else {
        match NegTokenTarg::read(token) {
            Ok(read) => targ(rt, number, token.len(), read),
            Err(fault) => explained(rt, number, token, fault),
        }
    }
}

fn init(rt: &impl Print, number: u64, len: usize, token: NegTokenInit<'_>) -> io::Result<()> {
    println!(rt; "token {number}: NegTokenInit, {len} bytes")?;
    oid(rt, "thisMech", token.this_mech)?;
    match token.mech_types {
        None => println!(rt; "mechTypes absent")?,
        Some(list) => mech_types(rt, list)?,
    }
    bytes(rt, "reqFlags", token.req_flags)?;
    bytes(rt, "mechToken", token.mech_token)?;
    bytes(rt, "mechListMIC", token.mech_list_mic)
}

fn targ(rt: &impl Print, number: u64, len: usize, token: NegTokenTarg<'_>) -> io::Result<()> {
    println!(rt; "token {number}: NegTokenTarg, {len} bytes")?;
    match token.neg_state {
        None => println!(rt; "negState absent")?,
        Some(element) => named(rt, "negState", element, NegState::try_from(element).ok())?,
    }
    match token.supported_mech {
        None => println!(rt; "supportedMech absent")?,
        Some(mech) => oid(rt, "supportedMech", mech)?,
    }
    bytes(rt, "responseToken", token.response_token)?;
    bytes(rt, "mechListMIC", token.mech_list_mic)
}

// Prints a line for each mechanism of the list.
fn mech_types(rt: &impl Print, element: &[u8]) -> io::Result<()> {
    let Ok(list) = MechTypeList::read(element) else {
        return println!(rt; "mechTypes {}", Hex(element));
    };
    if list.split_first().is_none() {
        return println!(rt; "mechTypes empty");
    }
    for mech in list {
        oid(rt, "mechTypes", mech)?;
    }
    Ok(())
}

// Prints a field of bytes.
fn bytes(rt: &impl Print, field: &str, value: Option<&[u8]>) -> io::Result<()> {
    match value {
        None => println!(rt; "{field} absent"),
        Some([]) => println!(rt; "{field} 0 bytes"),
        Some(value) => println!(rt; "{field} {} bytes {}", value.len(), Hex(value)),
    }
}

fn oid(rt: &impl Print, field: &str, oid: &[u8]) -> io::Result<()> {
    named(rt, field, oid, Mech::try_from(oid).ok())
}

// Prints bytes that may have a name.
fn named<T: Display + Drop>(
    rt: &impl Print,
    field: &str,
    value: &[u8],
    name: Option<T>,
) -> io::Result<()> {
    match name {
        None => println!(rt; "{field} {}", Hex(value)),
        Some(name) => println!(rt; "{field} {} {name}", Hex(value)),
    }
}

fn refused(rt: &impl Print, number: u64, fault: Fault) -> io::Result<()> {
    println!(rt;
        "token {number}: refused {:08X} {}",
        u32::from(fault.kind),
        fault.layer
    )
}

// Prints the refusal, and where and why.
fn explained(rt: &impl Print, number: u64, token: &[u8], fault: Fault) -> io::Result<()> {
    refused(rt, number, fault)?;
    match explain(token) {
        Err(trouble) => println!(rt; "{trouble}"),
        Ok(()) => println!(rt; "no reason found"),
    }
}
