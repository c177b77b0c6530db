ghost use Rattle.std.specs.Prelude.{◌≡◌, true, is_ok, Ok};
ghost use Rattle.config.specs.Checks.{checked, drafted, makes, plan_of};
ghost use Rattle.config.specs.declared.Plan.{Plan as PlanRecord};
ghost use Rattle.packages.specs.Packages.{any_open, parsed, seen};
ghost use Rattle.packages.specs.Protocols.{protocol_of};

use crate::{Draft, MAX_WORK, Plan, Role};
use packages::{PackageListConfig, Protocol, filter_protocol};
use sspi::Fault;
use std::marker::PhantomData;

impl<R: Role> Draft<R> {
    // Checks a configuration: the word for the protocol, and the list of packages.
    // Refuses first an unknown word, then a list that leaves nothing open, then a server that would run closed NTLM.
    #[tactic(auto, unfolding(crate::specs::Checks::checked))]
    pub fn check(word: &str, package_list: Option<&[u8]>) -> Result<Draft<R>, Fault>
        ensures answer { drafted result ≡ checked R.IS_CLIENT word.now (seen package_list.entry) }
        ensures as_listed { (p : PlanRecord) → drafted result ≡ Ok p → p.«open» ≡ parsed (seen package_list.entry) }
        ensures some { (p : PlanRecord) → drafted result ≡ Ok p → any_open p.«open» ≡ true }
        ensures made { is_ok result ≡ makes R.IS_CLIENT (protocol_of word.now) (parsed (seen package_list.entry)) }
    {
        let open = PackageListConfig::parse(package_list);
        let configured = word.parse::<Protocol>()?;
        let running = filter_protocol(configured, open, R::IS_CLIENT)?;
        Ok(Draft {
            role: PhantomData,
            plan: Plan {
                running,
                open,
                max_work: MAX_WORK,
            },
        })
    }
}

impl<R> Draft<R> {
    // Ends the draft.
    pub fn spend(self) -> Plan
        ensures answer { result ≡ plan_of self }
        ensures some { any_open result.«open» ≡ true }
    {
        let Draft { role: _, plan } = self;
        plan
    }
}
