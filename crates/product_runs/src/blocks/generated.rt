//! The generated session: 40 blocks of 16 actors, of every role.
//!
//! Five volumes of four grains and eight mappings, three of them in a group, are made first. Each block has six hosts, three
//! administrators, four copiers and three cleaners; some lines are faulty, and so may be one more actor. Behind each block every volume
//! is read in part, and a second passes.

use crate::draws::Draws;
use std::alloc::{AllocError, Global};

/// The blocks of actors.
const BLOCKS: u32 = 40;

/// The volumes, and the blocks of each.
const VOLUMES: u32 = 5;

const VOLUME_BLOCKS: u32 = 512;

/// How many mappings a line may name: those that are made first, and some that administrators make.
const MAPPINGS: u32 = 12;

/// The mappings that are made first, and the group.
const MAPPING_LINES: &str = "mkfcconsistgrp -name g
mkfcmap -source V0 -target V1 -incremental
mkfcmap -source V1 -target V0 -incremental
mkfcmap -source V1 -target V2 -copyrate 0 -cleanrate 100
mkfcmap -source V2 -target V3 -copyrate 30
mkfcmap -source V0 -target V3 -copyrate 100
mkfcmap -source V0 -target V4 -consistgrp g
mkfcmap -source V1 -target V3 -consistgrp g -copyrate 0
mkfcmap -source V3 -target V2 -consistgrp g
";

/// A session that is being written.
#[derive(Drop)]
struct Session {
    text: String,
    draws: Draws,
}

impl Session {
    /// Makes the volumes, thin ones or not, and the mappings.
    fn add_first(&mut self, thin: bool) -> Result<(), AllocError> {
        let kind = if thin { " -thin" } else { "" };
        for volume in 0..VOLUMES {
            write!(
                self.text,
                "mkvdisk -name V{volume} -size 256 -unit kb{kind}\n"
            )?;
        }
        self.text.push_str(MAPPING_LINES)
    }

    /// An access of some blocks somewhere in a volume, seldom past its end; or a line that a host doesn't have, or no line at all.
    fn add_host_line(&mut self) -> Result<(), AllocError> {
        let volume = self.draws.below(VOLUMES);
        let first = self.draws.below(VOLUME_BLOCKS);
        let most = if self.draws.below(6) == 0 { 200 } else { 8 };
        let count = self.draws.below(most).saturating_add(1);
        let byte = self.draws.below(256);
        match self.draws.below(20) {
            0 => self.text.push_str("read V0 x\n"),
            1 => self.text.push_str("mkvdisk -size 1\n"),
            2..=10 => write!(self.text, "write V{volume} {first} {count} {byte:02x}\n"),
            _ => write!(self.text, "read V{volume} {first} {count}\n"),
        }
    }

    /// A command on a mapping or on the group.
    fn add_admin_line(&mut self) -> Result<(), AllocError> {
        let map = self.draws.below(MAPPINGS);
        let source = self.draws.below(VOLUMES);
        let target = self.draws.below(VOLUMES);
        match self.draws.below(16) {
            0..=3 => write!(self.text, "startfcmap -prep -restore {map}\n"),
            4 => write!(self.text, "prestartfcmap -restore {map}\n"),
            5 => write!(self.text, "startfcmap {map}\n"),
            6 => write!(self.text, "stopfcmap {map}\n"),
            7 => write!(self.text, "stopfcmap -force {map}\n"),
            8 => write!(self.text, "stopfcmap -split {map}\n"),
            9 => self.text.push_str("startfcconsistgrp -prep -restore g\n"),
            10 => self.text.push_str("stopfcconsistgrp -force g\n"),
            11 => write!(
                self.text,
                "mkfcmap -source V{source} -target V{target} -autodelete\n"
            ),
            12 => write!(self.text, "rmfcmap -force {map}\n"),
            13 => self.text.push_str("lsfcmap -delim :\n"),
            14 => write!(self.text, "lsfcmapdependentmaps {map}\n"),
            _ => self.text.push_str("startfcmap -prep\n"),
        }
    }

    /// The hosts and administrators of a block, and their lines.
    fn add_lines(&mut self) -> Result<(), AllocError> {
        for host in 0..6 {
            write!(self.text, "actor h{host} host\n")?;
            for _ in 0..2 {
                self.add_host_line()?;
            }
        }
        for admin in 0..3 {
            write!(self.text, "actor a{admin} admin\n")?;
            for _ in 0..2 {
                self.add_admin_line()?;
            }
        }
        Ok(())
    }

    /// The copiers and cleaners of a block; the last one has a name of its own in each.
    fn add_workers(&mut self, block: u32) -> Result<(), AllocError> {
        for copier in 0..4 {
            let turns = self.draws.below(4).saturating_add(1);
            write!(self.text, "actor c{copier} copier {turns}\n")?;
        }
        for cleaner in 0..2 {
            let turns = self.draws.below(4).saturating_add(1);
            write!(self.text, "actor k{cleaner} cleaner {turns}\n")?;
        }
        write!(self.text, "actor k{block}-last cleaner 4\n")
    }

    /// A block.
    fn add_block(&mut self, block: u32) -> Result<(), AllocError> {
        self.text.push_str("together\n")?;
        if self.draws.below(4) == 0 {
            self.text.push_str("read V0 0 1\n")?;
        }
        self.add_lines()?;
        self.add_workers(block)?;
        if self.draws.below(4) == 0 {
            self.text.push_str("actor late host\nread V0 0 1\n")?;
        }
        self.text.push_str("end\n")
    }

    /// What comes behind a block: some blocks of two grains of every volume are read, the first two or the last two by turns; a fault
    /// may be armed; and a second passes.
    fn add_between(&mut self, block: u32, thin: bool) -> Result<(), AllocError> {
        let first = if block % 2 == 0 { 124 } else { 380 };
        for volume in 0..VOLUMES {
            write!(self.text, "read V{volume} {first} 8\n")?;
        }
        if thin {
            let volume = self.draws.below(VOLUMES);
            let grain = self.draws.below(4);
            let calls = self.draws.below(6);
            write!(self.text, "armfault V{volume} {grain} {calls}\n")?;
        }
        self.text.push_str("advance -seconds 1\n")
    }
}

/// The session of a number, of thin volumes or of flat ones.
pub fn generated(alloc: Global, number: u64, thin: bool) -> Result<String, AllocError> {
    let mut session = Session {
        text: String::new(alloc),
        draws: Draws::of(number),
    };
    session.add_first(thin)?;
    for block in 0..BLOCKS {
        session.add_block(block)?;
        session.add_between(block, thin)?;
    }
    Ok(session.text)
}
