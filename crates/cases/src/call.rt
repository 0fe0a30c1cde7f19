// Calls, read from lines.
use crate::words::Group;
use network::{Call, Lent};

// all that there is of the buffers
const ALL: Lent = Lent {
    waiting: usize::MAX,
    returning: usize::MAX,
};

// The part of the buffers that a call is lent: all where nothing is said.
fn lent(rest: &[Group<'_>]) -> Option<Lent> {
    let [group] = rest else {
        return rest.is_empty().then_some(ALL);
    };
    match (group.word, group.numbers.as_slice()) {
        ("lent", [waiting, returning]) => Some(Lent {
            waiting: *waiting,
            returning: *returning,
        }),
        _ => None,
    }
}

fn time(rest: &[Group<'_>]) -> Option<u32> {
    let [group] = rest else {
        return None;
    };
    match (group.word, group.numbers.as_slice()) {
        ("at", [time]) if *time <= 0xffff_ffff => Some(*time as u32),
        _ => None,
    }
}

// A question has no further words.
fn alone<'a>(call: Call<'a>, rest: &[Group<'_>]) -> Option<Call<'a>> {
    rest.is_empty().then_some(call)
}

// The call that a line is, if it is one.
pub fn call<'a>(groups: &'a [Group<'_>]) -> Option<Call<'a>> {
    let [first, rest @ ..] = groups else {
        return None;
    };
    match (first.word, first.numbers.as_slice()) {
        ("open", sizes) => Some(Call::Open {
            sizes,
            time: time(rest)?,
        }),
        ("add", [constraint]) => Some(Call::Add {
            constraint: *constraint,
            lent: lent(rest)?,
        }),
        ("retract", [constraint]) => Some(Call::Retract {
            constraint: *constraint,
            lent: lent(rest)?,
        }),
        ("domain", [variable]) => alone(Call::Domain(*variable), rest),
        ("shown", [variable, value]) => alone(
            Call::Shown {
                variable: *variable,
                value: *value,
            },
            rest,
        ),
        ("why", [variable, value]) => alone(
            Call::Justification {
                variable: *variable,
                value: *value,
            },
            rest,
        ),
        ("wiped", []) => alone(Call::WipedOut, rest),
        _ => None,
    }
}
