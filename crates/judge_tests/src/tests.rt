//! Histories told by hand, right ones and wrong ones.

use crate::told::{Answer, Step, tell};
use fc_base::outcome::NoMemory;
use fc_base::size::GrainSize;
use fc_judge::{Verdict, Why, judge};
use std::alloc::Global;
use std::process::Abort;

/// Two volumes of two grains, a mapping, and a block: a host writes and reads while an administrator starts the mapping and a copier
/// works, under which stands a line that nobody knows. Its lines and the block are six segments.
const SESSION: &[u8] = b"mkvdisk -name A -size 128 -unit kb
mkvdisk -name B -size 128 -unit kb
mkfcmap -source A -target B
write A 0 1 11
together
actor h1 host
write A 0 1 22
read A 0 1
actor adm admin
startfcmap -prep 0
actor c copier 2
bogus
end
read B 0 1
";

/// What comes before the block, and the fault that `main` is told of.
const BEFORE: [Step; 5] = [
    Step::Make { volume: 0 },
    Step::Make { volume: 1 },
    Step::Map,
    Step::Write {
        actor: 0,
        byte: 0x11,
    },
    Step::Fault,
];

/// The host's entries, the administrator's, and the copier's two turns.
const WRITES: Step = Step::Write {
    actor: 1,
    byte: 0x22,
};

const READS: Step = Step::Read {
    actor: 1,
    volume: 0,
    byte: 0x22,
};

const STARTS: Step = Step::Start {
    actor: 2,
    source: 0,
    target: 1,
    times: 1,
};

const TURN: Step = Step::Turn { lane: 0 };

const NEXT_TURN: Step = Step::Turn { lane: 1 };

/// What stands behind the block: B is read.
fn reads_b(byte: u8) -> Step {
    Step::Read {
        actor: 0,
        volume: 1,
        byte,
    }
}

/// Whose entries stand in histories of the session.
const NAMES: [&str; 4] = ["main", "h1", "adm", "c"];

/// The verdict on the history of these steps, with actors of these names.
fn verdict_on(
    alloc: Global,
    session: &[u8],
    steps: &[Step],
    names: &[&str],
) -> Result<Verdict, NoMemory> {
    let history = tell(alloc, steps, names)?;
    judge(alloc, GrainSize::K64, session, &history)
}

/// This is the verdict on the history of these steps, with actors of these names.
fn expect(
    rt: &impl Abort,
    alloc: Global,
    session: &[u8],
    steps: &[Step],
    names: &[&str],
    verdict: Verdict,
) -> Result<(), NoMemory> {
    let found = verdict_on(alloc, session, steps, names)?;
    assert_eq!(rt; found, verdict);
    Ok(())
}

/// These steps, one list behind the other.
fn joined(alloc: Global, first: &[Step], then: &[Step]) -> Result<Vec<Step>, NoMemory> {
    let mut all = Vec::new(alloc);
    if all.extend_from_slice(first).is_err() || all.extend_from_slice(then).is_err() {
        return Err(NoMemory);
    }
    Ok(all)
}

/// This is the verdict on these steps, behind those before the block.
fn judged(
    rt: &impl Abort,
    alloc: Global,
    steps: &[Step],
    verdict: Verdict,
) -> Result<(), NoMemory> {
    let all = joined(alloc, &BEFORE, steps)?;
    expect(rt, alloc, SESSION, all.as_slice(), &NAMES, verdict)
}

/// The verdict on a wrong entry with this number.
fn wrong_at(entry: usize, why: Why) -> Verdict {
    Verdict::Wrong { entry, why }
}

/// The verdict on a wrong entry at this place behind those before the block.
fn wrong(place: usize, why: Why) -> Verdict {
    wrong_at(place.saturating_add(BEFORE.len()), why)
}

#[test]
fn each_order_of_the_actors_is_right(rt: HostRuntime) -> Result<(), NoMemory> {
    let alloc = rt.alloc();
    let steps = [WRITES, READS, STARTS, TURN, NEXT_TURN, reads_b(0x22)];
    judged(&rt, alloc, &steps, Verdict::Right)?;
    let steps = [WRITES, STARTS, TURN, READS, NEXT_TURN, reads_b(0x22)];
    judged(&rt, alloc, &steps, Verdict::Right)?;
    let steps = [STARTS, WRITES, READS, TURN, NEXT_TURN, reads_b(0x11)];
    judged(&rt, alloc, &steps, Verdict::Right)?;
    let steps = [TURN, STARTS, NEXT_TURN, WRITES, READS, reads_b(0x11)];
    judged(&rt, alloc, &steps, Verdict::Right)
}

#[test]
fn an_entry_left_out_or_twice_or_before_its_turn_is_wrong(rt: HostRuntime) -> Result<(), NoMemory> {
    let alloc = rt.alloc();
    let left_out = [WRITES, READS, STARTS, TURN, reads_b(0x22)];
    judged(&rt, alloc, &left_out, wrong(4, Why::Actor))?;
    let twice = [
        WRITES,
        WRITES,
        READS,
        STARTS,
        TURN,
        NEXT_TURN,
        reads_b(0x22),
    ];
    judged(&rt, alloc, &twice, wrong(1, Why::Request))?;
    let turned = [STARTS, NEXT_TURN, TURN, WRITES, READS, reads_b(0x11)];
    judged(&rt, alloc, &turned, wrong(1, Why::Request))?;
    let one_more = [WRITES, READS, STARTS, TURN, NEXT_TURN, TURN, reads_b(0x22)];
    judged(&rt, alloc, &one_more, wrong(5, Why::Actor))?;
    let behind_all = [WRITES, READS, STARTS, TURN, NEXT_TURN, reads_b(0x22), TURN];
    judged(&rt, alloc, &behind_all, wrong(6, Why::NothingAsked))
}

#[test]
fn a_read_of_what_was_before_is_wrong(rt: HostRuntime) -> Result<(), NoMemory> {
    let alloc = rt.alloc();
    let before_the_start = [WRITES, READS, STARTS, TURN, NEXT_TURN, reads_b(0)];
    judged(&rt, alloc, &before_the_start, wrong(5, Why::Bytes))?;
    let behind_the_start = [STARTS, WRITES, READS, TURN, NEXT_TURN, reads_b(0x22)];
    judged(&rt, alloc, &behind_the_start, wrong(5, Why::Bytes))?;
    let before_its_write = [READS, WRITES, STARTS, TURN, NEXT_TURN, reads_b(0x22)];
    judged(&rt, alloc, &before_its_write, wrong(0, Why::Request))?;
    let lost = [
        WRITES,
        Step::MediumError {
            actor: 1,
            volume: 0,
        },
        STARTS,
        TURN,
        NEXT_TURN,
        reads_b(0x22),
    ];
    judged(&rt, alloc, &lost, wrong(1, Why::NotLost))
}

/// A start of the mapping that tells so many triggers of this pair is wrong.
fn starts_wrong(
    rt: &impl Abort,
    alloc: Global,
    source: u32,
    target: u32,
    times: u32,
) -> Result<(), NoMemory> {
    let start = Step::Start {
        actor: 2,
        source,
        target,
        times,
    };
    let steps = [WRITES, start, READS, TURN, NEXT_TURN, reads_b(0x22)];
    judged(rt, alloc, &steps, wrong(1, Why::Trigger))
}

#[test]
fn a_start_triggers_its_mapping_once(rt: HostRuntime) -> Result<(), NoMemory> {
    let alloc = rt.alloc();
    starts_wrong(&rt, alloc, 1, 0, 1)?;
    starts_wrong(&rt, alloc, 0, 1, 0)?;
    starts_wrong(&rt, alloc, 0, 1, 2)
}

#[test]
fn a_first_part_says_how_far_it_goes(rt: HostRuntime) -> Result<(), NoMemory> {
    let alloc = rt.alloc();
    let in_the_block = Verdict::FirstPart { segment: 4 };
    judged(&rt, alloc, &[STARTS, WRITES], in_the_block)?;
    let behind_it = Verdict::FirstPart { segment: 5 };
    let steps = [STARTS, WRITES, READS, TURN, NEXT_TURN];
    judged(&rt, alloc, &steps, behind_it)?;
    let before_it = Verdict::FirstPart { segment: 2 };
    expect(&rt, alloc, SESSION, &BEFORE[..2], &["main"], before_it)
}

#[test]
fn the_actors_have_their_names(rt: HostRuntime) -> Result<(), NoMemory> {
    let alloc = rt.alloc();
    let session = b"together\nactor h1 host\nread A 0 1\nactor h2 host\nend\n";
    let refused = [Step::Refused { actor: 1 }];
    let names = ["main", "h1", "h2"];
    expect(&rt, alloc, session, &refused, &names, Verdict::Right)?;
    let exchanged = ["main", "h2", "h1"];
    let verdict = wrong_at(0, Why::Names);
    expect(&rt, alloc, session, &refused, &exchanged, verdict)?;
    let another = ["main", "h1", "h3"];
    let verdict = wrong_at(1, Why::Names);
    expect(&rt, alloc, session, &refused, &another, verdict)
}

/// A group of two mappings is made and started, and a trigger of so many of them is told.
fn with_pairs(pairs: u32) -> [Step; 6] {
    [
        Step::Make { volume: 0 },
        Step::Make { volume: 1 },
        Step::Group,
        Step::InGroup { source: 0 },
        Step::InGroup { source: 1 },
        Step::StartGroup { pairs },
    ]
}

#[test]
fn a_group_is_started_with_all_its_mappings(rt: HostRuntime) -> Result<(), NoMemory> {
    let alloc = rt.alloc();
    let session = b"mkvdisk -name A -size 128 -unit kb
mkvdisk -name B -size 128 -unit kb
mkfcconsistgrp
mkfcmap -source A -target B -consistgrp 1
mkfcmap -source B -target A -consistgrp 1
together
actor adm admin
startfcconsistgrp 1
end
";
    let names = ["main", "adm"];
    expect(&rt, alloc, session, &with_pairs(2), &names, Verdict::Right)?;
    let verdict = wrong_at(5, Why::Trigger);
    expect(&rt, alloc, session, &with_pairs(1), &names, verdict)
}

#[test]
fn a_torn_grain_is_lost_until_it_is_written_whole(rt: HostRuntime) -> Result<(), NoMemory> {
    let alloc = rt.alloc();
    let session = b"mkvdisk -name A -size 128 -unit kb\nwrite A 0 1 11\nread A 0 1\n";
    let tear = Step::Tear {
        actor: 0,
        byte: 0x11,
    };
    let lost = Step::MediumError {
        actor: 0,
        volume: 0,
    };
    let reads = Step::Read {
        actor: 0,
        volume: 0,
        byte: 0x11,
    };
    let make = Step::Make { volume: 0 };
    let names = ["main"];
    let steps = [make, tear, lost];
    expect(&rt, alloc, session, &steps, &names, Verdict::Right)?;
    let steps = [make, tear, reads];
    let verdict = wrong_at(2, Why::Bytes);
    expect(&rt, alloc, session, &steps, &names, verdict)?;
    let again = b"mkvdisk -name A -size 128 -unit kb\nwrite A 0 1 11\nwrite A 0 1 11\n";
    let writes = Step::Write {
        actor: 0,
        byte: 0x11,
    };
    let steps = [make, tear, writes];
    let verdict = wrong_at(2, Why::WriteOfLost);
    expect(&rt, alloc, again, &steps, &names, verdict)
}

#[test]
fn seconds_copy_as_much_as_they_do(rt: HostRuntime) -> Result<(), NoMemory> {
    let alloc = rt.alloc();
    let session = b"mkvdisk -name A -size 128 -unit kb
mkvdisk -name B -size 128 -unit kb
mkfcmap -source A -target B
startfcmap -prep 0
advance -seconds 1
";
    let steps = [
        Step::Make { volume: 0 },
        Step::Make { volume: 1 },
        Step::Map,
        Step::Start {
            actor: 0,
            source: 0,
            target: 1,
            times: 1,
        },
        Step::Advance,
        Step::Copy { grain: 0 },
        Step::Copy { grain: 1 },
        Step::Fault,
    ];
    let names = ["main"];
    let before = Verdict::FirstPart { segment: 4 };
    expect(&rt, alloc, session, &steps[..4], &names, before)?;
    expect(&rt, alloc, session, &steps[..5], &names, Verdict::Right)?;
    expect(&rt, alloc, session, &steps[..6], &names, Verdict::Right)?;
    expect(&rt, alloc, session, &steps[..7], &names, Verdict::Right)?;
    let too_much = wrong_at(7, Why::NothingAsked);
    expect(&rt, alloc, session, &steps, &names, too_much)
}

/// A preset of A, and the lines that stand in place of it.
#[derive(Clone, Copy)]
struct Preset {
    line: &'static str,
    volume: &'static str,
    mapping: &'static str,
    incremental: bool,
}

const SNAPSHOT: Preset = Preset {
    line: "mkpreset -source A -preset snapshot -name s1",
    volume: "mkvdisk -name s1 -size 128 -unit kb -thin",
    mapping: "mkfcmap -source A -target 1 -name s1 -copyrate 0 -cleanrate 0",
    incremental: false,
};

const CLONE: Preset = Preset {
    line: "mkpreset -source 0 -preset clone",
    volume: "mkvdisk -size 128 -unit kb",
    mapping: "mkfcmap -source 0 -target 1 -copyrate 50 -autodelete",
    incremental: false,
};

const BACKUP: Preset = Preset {
    line: "mkpreset -name b -preset backup -source A",
    volume: "mkvdisk -name b -size 128 -unit kb",
    mapping: "mkfcmap -source A -target 1 -name b -copyrate 50 -incremental",
    incremental: true,
};

impl Preset {
    /// Its volume is asked.
    fn volume(self, answer: Answer) -> Step {
        Step::Line {
            line: self.volume,
            answer,
        }
    }

    /// Its mapping is asked.
    fn mapping(self, answer: Answer) -> Step {
        Step::Line {
            line: self.mapping,
            answer,
        }
    }

    /// Its volume is made.
    fn makes(self) -> Step {
        self.volume(Answer::Volume(1))
    }

    /// Its mapping is made.
    fn maps(self) -> Step {
        self.mapping(Answer::Mapping(0))
    }

    /// Its mapping is started.
    fn starts(self) -> Step {
        start(Answer::Starts {
            map: 0,
            target: 1,
            incremental: self.incremental,
        })
    }

    /// The session in which it is all that is asked behind the making of A.
    fn session(self, alloc: Global) -> Result<String, NoMemory> {
        let line = self.line;
        match format!(in alloc; "mkvdisk -name A -size 128 -unit kb\n{line}\n") {
            Ok(session) => Ok(session),
            Err(_) => Err(NoMemory),
        }
    }

    /// This is the verdict on these steps behind the making of A, where the preset is all that is asked then.
    fn judged(
        self,
        rt: &impl Abort,
        alloc: Global,
        steps: &[Step],
        verdict: Verdict,
    ) -> Result<(), NoMemory> {
        let all = joined(alloc, &[Step::Make { volume: 0 }], steps)?;
        let session = self.session(alloc)?;
        expect(
            rt,
            alloc,
            session.as_bytes(),
            all.as_slice(),
            &["main"],
            verdict,
        )
    }
}

/// The start of the new mapping is asked.
fn start(answer: Answer) -> Step {
    Step::Line {
        line: "startfcmap -prep 0",
        answer,
    }
}

/// The new mapping goes, and the new volume.
const UNMAPS: Step = Step::Line {
    line: "rmfcmap 0",
    answer: Answer::MappingGone(0),
};

const UNMAKES: Step = Step::Line {
    line: "rmvdisk 1",
    answer: Answer::VolumeGone(1),
};

/// All three steps of a preset are right, and fewer of them are a first part.
fn comes_in_full(rt: &impl Abort, alloc: Global, preset: Preset) -> Result<(), NoMemory> {
    let steps = [preset.makes(), preset.maps(), preset.starts()];
    preset.judged(rt, alloc, &steps, Verdict::Right)?;
    let first = Verdict::FirstPart { segment: 1 };
    preset.judged(rt, alloc, &steps[..0], first)?;
    preset.judged(rt, alloc, &steps[..1], first)?;
    preset.judged(rt, alloc, &steps[..2], first)
}

#[test]
fn a_preset_is_a_volume_a_mapping_and_its_start(rt: HostRuntime) -> Result<(), NoMemory> {
    let alloc = rt.alloc();
    comes_in_full(&rt, alloc, SNAPSHOT)?;
    comes_in_full(&rt, alloc, CLONE)?;
    comes_in_full(&rt, alloc, BACKUP)
}

/// What a preset made goes where its volume, its mapping or its start is answered so.
fn goes_again(
    rt: &impl Abort,
    alloc: Global,
    preset: Preset,
    answer: Answer,
) -> Result<(), NoMemory> {
    let volume = [preset.volume(answer)];
    preset.judged(rt, alloc, &volume, Verdict::Right)?;
    let mapping = [preset.makes(), preset.mapping(answer), UNMAKES];
    preset.judged(rt, alloc, &mapping, Verdict::Right)?;
    let started = [
        preset.makes(),
        preset.maps(),
        start(answer),
        UNMAPS,
        UNMAKES,
    ];
    preset.judged(rt, alloc, &started, Verdict::Right)
}

#[test]
fn what_a_preset_made_goes_where_it_is_refused(rt: HostRuntime) -> Result<(), NoMemory> {
    let alloc = rt.alloc();
    for preset in [SNAPSHOT, CLONE, BACKUP] {
        goes_again(&rt, alloc, preset, Answer::NoDisk)?;
        goes_again(&rt, alloc, preset, Answer::NoMemory)?;
    }
    let undone = [
        CLONE.makes(),
        CLONE.maps(),
        start(Answer::NoMemory),
        Step::Line {
            line: "rmfcmap 0",
            answer: Answer::NoMemory,
        },
        Step::Line {
            line: "rmvdisk 1",
            answer: Answer::NoMemory,
        },
    ];
    CLONE.judged(&rt, alloc, &undone, Verdict::Right)
}

/// A preset of A is answered itself.
fn preset_answered(answer: Answer) -> Step {
    Step::Line {
        line: "mkpreset -source A -preset backup",
        answer,
    }
}

#[test]
fn a_preset_of_no_volume_is_refused_itself(rt: HostRuntime) -> Result<(), NoMemory> {
    let alloc = rt.alloc();
    let session = b"mkpreset -source A -preset backup\n";
    let names = ["main"];
    let steps = [preset_answered(Answer::NoVolume)];
    expect(&rt, alloc, session, &steps, &names, Verdict::Right)?;
    let verdict = wrong_at(0, Why::Reply);
    let steps = [preset_answered(Answer::NoDisk)];
    expect(&rt, alloc, session, &steps, &names, verdict)?;
    let steps = [preset_answered(Answer::NoMemory)];
    expect(&rt, alloc, session, &steps, &names, verdict)?;
    let itself = [Step::Line {
        line: SNAPSHOT.line,
        answer: Answer::NoVolume,
    }];
    SNAPSHOT.judged(&rt, alloc, &itself, wrong_at(1, Why::Request))
}

/// Another mapping than a snapshot's is wrong.
fn maps_wrong(rt: &impl Abort, alloc: Global, mapping: &'static str) -> Result<(), NoMemory> {
    let steps = [
        SNAPSHOT.makes(),
        Step::Line {
            line: mapping,
            answer: Answer::Mapping(0),
        },
    ];
    SNAPSHOT.judged(rt, alloc, &steps, wrong_at(2, Why::Request))
}

#[test]
fn a_line_of_a_preset_that_comes_otherwise_is_wrong(rt: HostRuntime) -> Result<(), NoMemory> {
    let alloc = rt.alloc();
    let left_out = [SNAPSHOT.makes(), SNAPSHOT.starts()];
    SNAPSHOT.judged(&rt, alloc, &left_out, wrong_at(2, Why::Request))?;
    let behind_a_refusal = [SNAPSHOT.volume(Answer::NoDisk), SNAPSHOT.maps()];
    SNAPSHOT.judged(
        &rt,
        alloc,
        &behind_a_refusal,
        wrong_at(2, Why::NothingAsked),
    )?;
    let started_again = [CLONE.makes(), CLONE.maps(), CLONE.starts(), CLONE.starts()];
    CLONE.judged(&rt, alloc, &started_again, wrong_at(4, Why::NothingAsked))?;
    for mapping in [
        "mkfcmap -source A -target 1 -name s1 -copyrate 50 -autodelete",
        "mkfcmap -source A -target 0 -name s1 -copyrate 0 -cleanrate 0",
        "mkfcmap -source A -target 1 -copyrate 0 -cleanrate 0",
    ] {
        maps_wrong(&rt, alloc, mapping)?;
    }
    let another_id = [SNAPSHOT.makes(), SNAPSHOT.mapping(Answer::Mapping(3))];
    SNAPSHOT.judged(&rt, alloc, &another_id, wrong_at(2, Why::Id))
}

/// This is the verdict where a preset whose start is refused is undone by these two steps.
fn undoes(
    rt: &impl Abort,
    alloc: Global,
    first: Step,
    then: Step,
    verdict: Verdict,
) -> Result<(), NoMemory> {
    let steps = [
        BACKUP.makes(),
        BACKUP.maps(),
        start(Answer::NoMemory),
        first,
        then,
    ];
    BACKUP.judged(rt, alloc, &steps, verdict)
}

#[test]
fn a_preset_is_undone_from_its_end(rt: HostRuntime) -> Result<(), NoMemory> {
    let alloc = rt.alloc();
    let refused = [BACKUP.makes(), BACKUP.maps(), start(Answer::NoMemory)];
    undoes(&rt, alloc, UNMAKES, UNMAPS, wrong_at(4, Why::Request))?;
    undoes(&rt, alloc, UNMAPS, UNMAPS, wrong_at(5, Why::Request))?;
    undoes(&rt, alloc, UNMAPS, UNMAKES, Verdict::Right)?;
    let undone_in_part = [
        BACKUP.makes(),
        BACKUP.maps(),
        start(Answer::NoMemory),
        UNMAPS,
    ];
    let left = Verdict::FirstPart { segment: 1 };
    BACKUP.judged(&rt, alloc, &refused, left)?;
    BACKUP.judged(&rt, alloc, &undone_in_part, left)?;
    let volume_left = [BACKUP.makes(), BACKUP.mapping(Answer::NoDisk)];
    BACKUP.judged(&rt, alloc, &volume_left, left)
}
