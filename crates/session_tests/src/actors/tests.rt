//! What works beside what in a block, and what waits for what.

use crate::actors::holding::{HoldingGate, Outcome, Point};
use crate::actors::running::{expect_order, run_held};
use std::alloc::{AllocError, Global};
use std::process::Abort;
use std::sync::Wait;
use std::thread::Threads;

/// Runs a session with these holds, each of which is released, and asserts that the parts stand in its text one behind the other.
fn expect_released<R: Threads + Wait + Sync + Abort>(
    rt: &R,
    alloc: Global,
    session: &[u8],
    holds: &[(Point, Point)],
    parts: &[&str],
) -> Result<(), AllocError> {
    let gate = HoldingGate::new(alloc, holds)?;
    let outcome = run_held(rt, alloc, session, &gate)?;
    assert!(rt; gate.all(Outcome::Released));
    expect_order(rt, alloc, &outcome, parts)
}

/// Two hosts, whose last accesses are of grains of different lanes.
const TWO_HOSTS: &[u8] = b"mkvdisk -name A -size 512 -unit kb
together
actor h1 host
write A 0 1 11
actor h2 host
read A 256 1
write A 128 1 22
end
";

#[test]
fn a_host_is_answered_while_another_is_inside_its_turn(rt: HostRuntime) -> Result<(), AllocError> {
    expect_released(
        &rt,
        rt.alloc(),
        TWO_HOSTS,
        &[
            (Point::answered(2, 0), Point::inside(1, 0)),
            (Point::inside(1, 0), Point::answered(2, 1)),
        ],
        &["h1 write 0 0 1 11 -> ok", "h2 write 0 128 1 22 -> ok"],
    )
}

/// A copier, whose third turn is in lane 2, and a host, whose last access is in lane 1.
const COPIER_AND_HOST: &[u8] = b"mkvdisk -name A -size 512 -unit kb
mkvdisk -name B -size 512 -unit kb
mkfcmap -source A -target B
startfcmap -prep 0
together
actor c copier 3
actor h host
read A 0 1
write A 128 1 22
end
";

#[test]
fn a_host_is_answered_while_a_copier_is_inside_its_turn(rt: HostRuntime) -> Result<(), AllocError> {
    expect_released(
        &rt,
        rt.alloc(),
        COPIER_AND_HOST,
        &[
            (Point::answered(2, 0), Point::inside(1, 2)),
            (Point::inside(1, 2), Point::answered(2, 1)),
        ],
        &["c copyturn 2 -> moved 0 2", "h write 0 128 1 22 -> ok"],
    )
}

/// A host whose line touches two grains, and one that reads the first of them behind another access.
const TWO_GRAINS: &[u8] = b"mkvdisk -name A -size 512 -unit kb
together
actor h1 host
write A 0 129 11
actor h2 host
read A 256 1
read A 0 1
end
";

#[test]
fn a_host_gives_its_turn_back_between_two_grains(rt: HostRuntime) -> Result<(), AllocError> {
    expect_released(
        &rt,
        rt.alloc(),
        TWO_GRAINS,
        &[
            (Point::answered(2, 0), Point::answered(1, 0)),
            (Point::answered(1, 0), Point::answered(2, 1)),
        ],
        &[
            "h1 write 0 0 128 11 -> ok",
            "h2 read 0 0 1 -> data 512*11",
            "h1 write 0 128 1 11 -> ok",
        ],
    )
}

/// Two hosts in two lanes, and an administrator, of whose lines the first is unread.
const HOSTS_AND_COMMAND: &[u8] = b"mkvdisk -name A -size 512 -unit kb
together
actor h1 host
write A 0 1 11
actor h2 host
write A 128 1 22
actor adm admin
bogus
mkfcconsistgrp
end
";

/// A hold has this outcome.
fn expect_hold(rt: &impl Abort, gate: &HoldingGate, index: usize, outcome: Outcome) {
    assert_eq!(rt; gate.outcome(index), Some(outcome), "hold {index}");
}

/// The holds of the hosts are released, and those until the command is answered give up.
fn expect_given_up(rt: &impl Abort, gate: &HoldingGate) {
    expect_hold(rt, gate, 0, Outcome::Released);
    expect_hold(rt, gate, 1, Outcome::Released);
    expect_hold(rt, gate, 2, Outcome::GaveUp);
    expect_hold(rt, gate, 3, Outcome::GaveUp);
}

#[test]
fn a_command_waits_for_each_host_that_is_inside_its_turn(
    rt: HostRuntime,
) -> Result<(), AllocError> {
    let alloc = rt.alloc();
    let holds = [
        (Point::answered(3, 0), Point::inside(1, 0)),
        (Point::answered(3, 0), Point::inside(2, 0)),
        (Point::inside(1, 0), Point::answered(3, 1)),
        (Point::inside(2, 0), Point::answered(3, 1)),
    ];
    let gate = HoldingGate::new(alloc, &holds)?;
    let outcome = run_held(&rt, alloc, HOSTS_AND_COMMAND, &gate)?;
    expect_given_up(&rt, &gate);
    let command = "adm mkfcconsistgrp -> ";
    expect_order(&rt, alloc, &outcome, &["h1 write 0 0 1 11 -> ok", command])?;
    expect_order(
        &rt,
        alloc,
        &outcome,
        &["h2 write 0 128 1 22 -> ok", command],
    )
}
