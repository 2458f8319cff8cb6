//! The ranks of `--held=R,..`, as words of their own.

use std::alloc::{AllocError, Global};

/// Adds a word; of one that asks for ranks, the flag and an option for each rank.
fn push_word(alloc: Global, words: &mut Vec<String>, word: String) -> Result<(), AllocError> {
    let Some(ranks) = word.as_str().strip_prefix("--held=") else {
        words.push(word)?;
        return Ok(());
    };
    words.push(String::from_str(alloc, "--held")?)?;
    for rank in ranks.split(',') {
        words.push(format!(in alloc; "--held-rank={rank}")?)?;
    }
    Ok(())
}

/// The words, in which `--held=R,..` of a judgement is replaced so.
pub(crate) fn with_ranks(alloc: Global, words: Vec<String>) -> Result<Vec<String>, AllocError> {
    let mut all = Vec::new(alloc);
    let mut are_options = words.len() > 0 && words[0].as_str() == "judge";
    for word in words {
        are_options = are_options && word.as_str() != "--";
        if are_options {
            push_word(alloc, &mut all, word)?;
        } else {
            all.push(word)?;
        }
    }
    Ok(all)
}
