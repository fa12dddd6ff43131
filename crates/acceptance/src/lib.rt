// Network files: what the header asks, and the checks by which the panel accepts a file (PANEL 8).
#![tactic(auto)]

ghost use Rattle.std.specs.Prelude.{◌≡◌};
ghost use Rattle.prelude.specs.Checks.{first_broken};
ghost use Rattle.refusals.specs.Refusals.{why};
ghost use Rattle.network.specs.Tests.{reading_all};
ghost use Rattle.checks.specs.Held.{asked};
ghost use Rattle.format.specs.Files.{setting_in, arcs_in};
ghost use Rattle.acceptance.specs.Acceptance.{acceptance_checks};

use checks::{HeldSetting, Opening, opening_check};
use format::network_file;
use reading::reading_check;
use refusals::Refusal;

// What the header asks.
pub fn setting(net: &[u8]) -> HeldSetting
    ensures { asked result ≡ setting_in net.now }
{
    let question = network_file::question(net);
    let n = network_file::vertices(net);
    let s = network_file::source(net);
    let t = network_file::sink(net);
    HeldSetting {
        question: question,
        n: n,
        s: s,
        t: t,
    }
}

// The first check that refuses a record: 6, 7 or 8.
fn records_check(st: HeldSetting, net: &[u8]) -> Result<(), Refusal>
    ensures { why result ≡ first_broken (reading_all (asked st) 0 (arcs_in net.now)) }
{
    let m = network_file::count(net) as u32;
    for e in 0..m {
        let arc = network_file::arc(net, e as usize);
        reading_check(st, e, arc)?;
    }
    Ok(())
}

// The first check that refuses the file: of its layout, of its header, or of one of its records in turn.
pub fn acceptance_check(net: &[u8]) -> Result<(), Refusal>
    ensures { why result ≡ first_broken (acceptance_checks net.now) }
{
    network_file::network_check(net)?;
    let st = setting(net);
    opening_check(Opening::from(st))?;
    records_check(st, net)
}
