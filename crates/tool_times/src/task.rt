//! A periodic task.
use words_numbers::Prio;
use words_script::Name;

/// A periodic task. It releases a job at the instant 0 and at each multiple of its period.
#[derive(Drop)]
pub struct Task {
    pub name: Name,
    /// 1 to 255, where a greater number is served first. No two tasks of one text have the same.
    pub priority: Prio,
    /// The work of each job, in ticks: 1 to 1,000,000.
    pub cost: u32,
    /// From one release to the next, in ticks: 1 to 1,000,000,000.
    pub period: u32,
    /// The work above all tasks that stands before its first job, in ticks: at most 1,000,000. It counts for this task alone.
    pub blocking: u32,
}
