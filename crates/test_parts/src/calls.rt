//! What is known of a call.
use rules_machine::{call_name, is_cancellation_point};
use words_script::{Call, Moment, Operand};
use words_trace::CallName;

#[test]
fn names_and_points_of_two_calls(rt: HostRuntime) {
    let sleep = Call::ClockNanosleep {
        at: Moment::Monotonic(Operand::Reg),
    };
    assert!(rt; call_name(&sleep) == CallName::ClockNanosleep);
    assert!(rt; is_cancellation_point(&sleep));

    assert!(rt; call_name(&Call::Gettime) == CallName::Gettime);
    assert!(rt; !is_cancellation_point(&Call::Gettime));
}
