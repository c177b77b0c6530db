#![tactic(auto)]

ghost use Rattle.std.specs.Prelude.{◌≡◌, Bool, true, false};
ghost use Rattle.packages.specs.Packages.{any_open};

use packages::{PackageListConfig, Protocol};
use std::marker::PhantomData;

mod check;
mod sealed;

use sealed::Sealed;

// The greatest working buffer of a party, in bytes.
pub const MAX_WORK: usize = 16384;

// Whether a party begins or answers. Only this crate says so of a type.
pub trait Role: Sealed {
    const IS_CLIENT: bool;

    ghost IS_CLIENT: { Bool };
}

// The role of who begins.
#[derive(Clone, Copy)]
pub struct Client;

impl Role for Client {
    const IS_CLIENT: bool = true;

    ghost IS_CLIENT = { true };
}

// The role of who answers.
#[derive(Clone, Copy)]
pub struct Server;

impl Role for Server {
    const IS_CLIENT: bool = false;

    ghost IS_CLIENT = { false };
}

// A configuration that was checked: a party of the role R can be made of it, once.
// It is neither Copy nor Clone nor Drop, so it can be neither used twice nor let go; at least one package is open.
pub struct Draft<R> {
    role: PhantomData<R>,
    plan: Plan,
    ghost some: { any_open plan.«open» ≡ true },
}

// What stands in a draft: the protocol that runs, the packages that are open, and the greatest working buffer.
#[derive(Clone, Copy, PartialEq, Eq, Debug)]
pub struct Plan {
    pub running: Protocol,
    pub open: PackageListConfig,
    pub max_work: usize,
}
