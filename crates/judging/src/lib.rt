// Judging two files at a pair of points.
#![tactic(auto)]

ghost use Rattle.std.specs.Prelude.{◌≡◌};
ghost use Rattle.state.specs.Results.{verdict};
ghost use Rattle.judging.specs.Judging.{judged};

use acceptance::setting;
use checks::Opening;
use format::annotation_file::annotation_check;
use format::network_file;
use judging_runs::{annotation_steps, read_all};
use points::Point;
use refusals::Refusal;
use state::State;

// What the two files come out as at the pair of points: a value, none, or the first refusal.
pub fn judge(net: &[u8], ann: &[u8], point: Point) -> Result<Option<u64>, Refusal>
    ensures { verdict result ≡ judged net.now ann.now point }
{
    network_file::network_check(net)?;
    let opened = State::open(Opening::from(setting(net)), point)?;
    let read = read_all(opened, net)?;
    let n = network_file::vertices(net);
    annotation_check(ann, n)?;
    annotation_steps(read, ann, n)
}
