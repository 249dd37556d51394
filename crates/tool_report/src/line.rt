//! The line of a task.
ghost use Rattle.std.specs.Prelude.{◌≡◌, ◌≤◌, length};
ghost use Rattle.tool_times.specs.Answer.{task_line};

use arrayvec::ArrayVec;
use parts_text::{add, add_number};

/// Room for the longest line, in bytes: a name has at most 32, and a number at most 20.
pub(crate) type TaskLine = ArrayVec<u8, 68>;

/// The line of the task of that name: its response in ticks, or that there is none up to the bound.
pub(crate) fn task_line(name: &[u8], response: Option<u64>) -> TaskLine
    requires { length name.now ≤ 32 }
    ensures { result.items ≡ task_line name.now response }
{
    let mut line = ArrayVec::new();
    add(&mut line, b"task ");
    add(&mut line, name);
    match response {
        Some(ticks) => {
            add(&mut line, b" response ");
            add_number(&mut line, ticks);
            add(&mut line, b"\n");
            line
        }
        None => {
            add(&mut line, b" none\n");
            line
        }
    }
}
