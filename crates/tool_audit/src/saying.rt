//! What a line says of one thread.
ghost use Rattle.std.specs.Prelude.{◌≡◌, slice_index_or};
ghost use Rattle.tool_check.specs.Lines.{seen};
ghost use Rattle.tool_audit.specs.Marks.{if_mine, saying_of};
ghost use Rattle.tool_check.specs.Small.{AreSmall};
ghost use Rattle.tool_audit.specs.Said.{meant, IsSmall};
ghost use Rattle.std.specs.Str.{bytes_eq};

use tool_check::{Form, TraceLine};

/// What a line says of one thread.
#[derive(Clone, Copy)]
pub(crate) enum Saying {
    Begins,
    /// The processor is given to it.
    IsGiven,
    /// The processor is given to another thread, or to none.
    IsTaken,
    /// The capacity.
    IsActivated(u64),
    Exhausts,
    /// The amount, and the due tick.
    IsPlanned(u64, u64),
    /// The amount, and the capacity.
    IsRefilled(u64, u64),
    Exits,
    Nothing,
}

// The number in this place, or 0.
fn number_at(nums: &[u64], k: usize) -> u64
    ensures { result ≡ slice_index_or nums.now k 0 }
{
    if k < nums.len() { nums[k] } else { 0 }
}

fn if_mine(mine: bool, what: Saying) -> Saying
    requires { IsSmall what }
    ensures value { meant result ≡ if_mine mine (meant what) }
    ensures small { IsSmall result }
{
    if mine { what } else { Saying::Nothing }
}

impl Saying {
    /// What a line says of the thread of this name.
    pub(crate) fn of(line: &TraceLine<'_>, name: &[u8]) -> Saying
        requires { AreSmall (seen line.now).nums }
        ensures value { meant result ≡ saying_of (bytes_eq line.now.name.now name.now) line.now.form (seen line.now) }
        ensures small { IsSmall result }
    {
        let nums = line.nums.as_slice();
        match line.form {
            Form::Dispatch => {
                if line.name == name {
                    Saying::IsGiven
                } else {
                    Saying::IsTaken
                }
            }
            Form::Idle => Saying::IsTaken,
            Form::Start => if_mine(line.name == name, Saying::Begins),
            Form::Activate => {
                if_mine(line.name == name, Saying::IsActivated(number_at(nums, 0)))
            }
            Form::Exhaust => if_mine(line.name == name, Saying::Exhausts),
            Form::Plan => {
                if_mine(
                    line.name == name,
                    Saying::IsPlanned(number_at(nums, 0), number_at(nums, 1)),
                )
            }
            Form::Refill => {
                if_mine(
                    line.name == name,
                    Saying::IsRefilled(number_at(nums, 0), number_at(nums, 1)),
                )
            }
            Form::Exit => if_mine(line.name == name, Saying::Exits),
            Form::Return
            | Form::Deliver
            | Form::Cancel
            | Form::Killed
            | Form::End
            | Form::Thread
            | Form::Budget => Saying::Nothing,
        }
    }
}
