ghost use Rattle.std.specs.Prelude.{◌≡◌, true, false};
ghost use Rattle.config.specs.Checks.{checked, plan_of};
ghost use Rattle.packages.specs.Packages.{seen};

use config::{Client, Draft, Plan, Server};
use sspi::Fault;

// What a client's configuration comes to: its draft is made and spent.
pub fn client_plan(word: &str, package_list: Option<&[u8]>) -> Result<Plan, Fault>
    ensures { result ≡ checked true word.now (seen package_list.entry) }
{
    let draft = Draft::<Client>::check(word, package_list)?;
    Ok(draft.spend())
}

// What a server's configuration comes to. Unlike a client's draft, this one goes through a function that takes no other.
pub fn server_plan(word: &str, package_list: Option<&[u8]>) -> Result<Plan, Fault>
    ensures { result ≡ checked false word.now (seen package_list.entry) }
{
    let draft = Draft::<Server>::check(word, package_list)?;
    Ok(served(draft))
}

// Only a server's draft is spent here.
fn served(draft: Draft<Server>) -> Plan
    ensures { result ≡ plan_of draft }
{
    draft.spend()
}
