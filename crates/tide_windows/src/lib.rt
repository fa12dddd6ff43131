// Windows of a tide table, each a row of three numbers: position, first, end. When a record is open, and which windows may be handed over.
#![tactic(auto)]

ghost use Rattle.std.specs.Prelude.{◌≡◌, ◌&&◌};
ghost use Rattle.prelude.specs.Checks.{first_broken};
ghost use Rattle.prelude.specs.Lists.{all, any};
ghost use Rattle.tide_windows.specs.Windows.{window_in, windows_in, is_of, includes, is_open, window_ok, windows_checks};
ghost use Rattle.refusals.specs.Refusals.{why};

use refusals::Refusal;

// The limits (PANEL 14): the most windows, the last minute of a week, and the last end.
const MOST_WINDOWS: usize = 64;

const LAST_MINUTE: u32 = 10079;

const LAST_END: u32 = 10080;

// Is it a window of the record at the position?
fn is_of(row: [u32; 3], position: u32) -> bool
    ensures { result ≡ is_of position (window_in row) }
{
    row[0] == position
}

// Is it that, and is the minute in it?
fn opens(row: [u32; 3], minute: u32, position: u32) -> bool
    ensures { result ≡ (is_of position (window_in row) && includes minute (window_in row)) }
{
    is_of(row, position) && row[1] <= minute && minute < row[2]
}

// Has the record at the position a window?
fn has_window(windows: &[[u32; 3]], position: u32) -> bool
    ensures { result ≡ any (is_of position) (windows_in windows.now) }
{
    windows.iter().any(|w| is_of(*w, position))
}

// Is the minute in a window of the record at the position?
fn has_open_window(windows: &[[u32; 3]], minute: u32, position: u32) -> bool
    ensures { result ≡ any (λ w. is_of position w && includes minute w) (windows_in windows.now) }
{
    windows.iter().any(|w| opens(*w, minute, position))
}

// Is the record at the position open at the minute?
#[tactic(auto, unfolding(crate::specs::Windows::is_open))]
pub fn is_open(windows: &[[u32; 3]], minute: u32, position: u32) -> bool
    ensures { result ≡ is_open (windows_in windows.now) minute position }
{
    !has_window(windows, position) || has_open_window(windows, minute, position)
}

// Does the window have the position of one of the m records, minutes of a week, and an end after its first?
fn window_ok(row: [u32; 3], m: u32) -> bool
    ensures { result ≡ window_ok m (window_in row) }
{
    row[0] < m && row[1] <= LAST_MINUTE && row[2] <= LAST_END && row[1] < row[2]
}

// Does every window?
fn windows_ok(windows: &[[u32; 3]], m: u32) -> bool
    ensures { result ≡ all (window_ok m) (windows_in windows.now) }
{
    windows.iter().all(|w| window_ok(*w, m))
}

// The first check that refuses the windows or the minute, for a file of m records: 21 or 22.
pub fn windows_check(windows: &[[u32; 3]], minute: u32, m: u32) -> Result<(), Refusal>
    ensures { why result ≡ first_broken (windows_checks m (windows_in windows.now) minute) }
{
    if MOST_WINDOWS < windows.len() {
        return Err(Refusal::TooManyWindows);
    }
    if LAST_MINUTE < minute || !windows_ok(windows, m) {
        return Err(Refusal::WindowNotAllowed);
    }
    Ok(())
}
