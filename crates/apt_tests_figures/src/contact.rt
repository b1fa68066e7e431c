//! Answers worked out by hand, and points computed by the formulas in another language.

use crate::rows::Track::{Beside, Ring};
use crate::rows::{Pair, Track, assert_all, target};
use apt_contact::{Meeting, contact, meet};
use apt_plane::Pt;
use apt_words::Case;

/// The x axis, and lines and a circle that many rows have.
const AXIS: Track = Beside((0, 0), (1, 0), 0);

const ABOVE: Track = Beside((0, 0), (1, 0), 300);

const FAR_ABOVE: Track = Beside((0, -50_000_000), (1, 0), 100_000_000);

const FAR_BELOW: Track = Beside((0, 50_000_000), (3, 0), -100_000_000);

const ROUND: Track = Ring((0, 0), 500);

const MEETINGS: [(Track, Track, Meeting); 27] = [
    (AXIS, Beside((0, 500), (-3, 0), 7), Meeting::Parallel),
    (AXIS, AXIS, Meeting::Parallel),
    (AXIS, Beside((0, 0), (1, 2), 100_000_000), Meeting::One),
    (AXIS, Ring((0, 500), 499), Meeting::Apart),
    (AXIS, Ring((0, 500), 500), Meeting::One),
    (AXIS, Ring((0, -500), 500), Meeting::One),
    (AXIS, Ring((0, -500), 499), Meeting::Apart),
    (AXIS, Ring((0, 500), 501), Meeting::Two),
    (Ring((0, 500), 501), AXIS, Meeting::Two),
    (ABOVE, Ring((0, 501), 200), Meeting::Apart),
    (ABOVE, Ring((0, 500), 200), Meeting::One),
    (ABOVE, Ring((0, 100), 200), Meeting::One),
    (Ring((0, 99), 200), ABOVE, Meeting::Apart),
    (FAR_ABOVE, Ring((7, 49_998_999), 1_000), Meeting::Apart),
    (FAR_ABOVE, Ring((7, 49_999_000), 1_000), Meeting::One),
    (FAR_ABOVE, Ring((7, 49_999_001), 1_000), Meeting::Two),
    (FAR_BELOW, Ring((7, -49_998_999), 1_000), Meeting::Apart),
    (FAR_BELOW, Ring((7, -49_999_000), 1_000), Meeting::One),
    (ROUND, Ring((0, 0), 500), Meeting::Parallel),
    (ROUND, Ring((0, 0), 700), Meeting::Parallel),
    (ROUND, Ring((0, 1501), 1000), Meeting::Apart),
    (ROUND, Ring((0, 1500), 1000), Meeting::One),
    (ROUND, Ring((0, 1499), 1000), Meeting::Two),
    (ROUND, Ring((0, 499), 1000), Meeting::Apart),
    (ROUND, Ring((0, 500), 1000), Meeting::One),
    (ROUND, Ring((0, 501), 1000), Meeting::Two),
    (ROUND, Ring((600, 0), 500), Meeting::Two),
];

fn meeting(a: Track, b: Track) -> Option<Meeting> {
    Some(meet(&target(a)?, &target(b)?))
}

fn meet_so(row: &(Track, Track, Meeting)) -> bool {
    let (a, b, want) = *row;
    meeting(a, b) == Some(want)
}

#[test]
fn meetings(rt: HostRuntime) {
    assert_all(&rt, &MEETINGS, meet_so);
}

/// A point, or none that is in range.
type At = Option<Pair>;

/// Where targets meet, for a sense of 1 and of -1.
const CONTACTS: [(Track, Track, At, At); 11] = [
    (
        Beside((1_000, 2_000), (5, 0), 300),
        Beside((-400, 700), (0, 3), 200),
        Some((-600, 2_300)),
        Some((-600, 2_300)),
    ),
    (
        Beside((0, 0), (3, 4), 500),
        Ring((0, 0), 1_300),
        Some((320, 1_260)),
        Some((-1_120, -660)),
    ),
    (
        Ring((0, 0), 1_000),
        Beside((0, 0), (3, 4), 0),
        Some((600, 800)),
        Some((-600, -800)),
    ),
    (
        FAR_ABOVE,
        Ring((7, 49_999_000), 1_000),
        Some((7, 50_000_000)),
        Some((7, 50_000_000)),
    ),
    (
        ROUND,
        Ring((600, 0), 500),
        Some((300, 400)),
        Some((300, -400)),
    ),
    (
        ROUND,
        Ring((0, 1_500), 1_000),
        Some((0, 500)),
        Some((0, 500)),
    ),
    (
        Ring((0, 0), 300),
        Ring((0, 300), 600),
        Some((0, -300)),
        Some((0, -300)),
    ),
    (
        AXIS,
        Beside((1, 100_000), (25_000_000, -50_000), 0),
        None,
        None,
    ),
    (
        Beside((49_999_000, 0), (1, 0), 0),
        Ring((49_999_500, 0), 1_000),
        None,
        Some((49_998_500, 0)),
    ),
    (
        Ring((49_999_500, 0), 1_000),
        Ring((49_999_500, 1_200), 1_000),
        Some((49_998_700, 600)),
        None,
    ),
    // Rounding makes the half chord the root of a number below 0.
    (
        Beside((27_304_196, -27_304_197), (1, 1), 0),
        Ring((0, 0), 38_613_965),
        Some((27_304_197, -27_304_197)),
        Some((27_304_197, -27_304_197)),
    ),
];

/// The contact of targets that meet: the one for 1, or for -1.
fn met(a: Track, b: Track, ahead: bool) -> Option<Result<Pt, Case>> {
    let a = target(a)?;
    let b = target(b)?;
    match meet(&a, &b) {
        Meeting::Parallel | Meeting::Apart => None,
        Meeting::One | Meeting::Two => {
            if ahead {
                Some(contact(&a, &b, 1))
            } else {
                Some(contact(&a, &b, -1))
            }
        }
    }
}

fn is_at(found: Option<Result<Pt, Case>>, want: At) -> bool {
    match (found, want) {
        (Some(Ok(p)), Some((x, y))) => p.x == x && p.y == y,
        (Some(Err(case)), None) => case == Case::OutOfRange,
        _ => false,
    }
}

fn meet_at(row: &(Track, Track, At, At)) -> bool {
    let (a, b, ahead, back) = *row;
    is_at(met(a, b, true), ahead) && is_at(met(a, b, false), back)
}

#[test]
fn contacts(rt: HostRuntime) {
    assert_all(&rt, &CONTACTS, meet_at);
}
