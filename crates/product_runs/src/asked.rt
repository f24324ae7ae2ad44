//! Which parts of the program its words ask for.

/// What the words ask for.
#[derive(Clone, Copy)]
pub enum Asked {
    /// All parts.
    All,
    /// What sessions do beside their texts.
    Traces,
    /// Reads beside plain volumes.
    Plain,
    /// Blocks of actors, judged.
    Blocks,
    /// Presets beside the lines that they stand for.
    Presets,
    /// The session `together`, run so often.
    Together(u32),
    /// Nothing that there is.
    Unknown,
}

/// What the first two words ask for.
pub fn asked_by(word: Option<String>, runs: Option<String>) -> Asked {
    let Some(word) = word else {
        return Asked::All;
    };
    match word.as_str() {
        "traces" => Asked::Traces,
        "plain" => Asked::Plain,
        "blocks" => Asked::Blocks,
        "presets" => Asked::Presets,
        "together" => match runs {
            Some(runs) => Asked::Together(runs.parse::<u32>().unwrap_or(0)),
            None => Asked::Unknown,
        },
        _ => Asked::Unknown,
    }
}
