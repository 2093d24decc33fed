//! Copies of what an election keeps, each equal to what it is a copy of.
ghost use Rattle.std.specs.Prelude.{◌≡◌, IfOk};

use crate::items::Items;
use crate::memory::NoMemory;
use crate::plan::{Draw, Fate, Paper, Plan, Race, Style};
use crate::word::Word;
use std::alloc::Global;

impl Plan {
    /// A plan equal to this one.
    pub fn copy(&self, alloc: Global) -> Result<Plan, NoMemory>
        ensures { IfOk result (λ copy. copy ≡ self.now) }
    {
        let name = self.name.copy(alloc)?;
        let races = copy_races(&self.races, alloc)?;
        let styles = copy_styles(&self.styles, alloc)?;
        let runs = self.runs.copy(alloc)?;
        Ok(Plan {
            version: self.version,
            name,
            instances: self.instances,
            races,
            styles,
            runs,
        })
    }
}

impl Race {
    /// A race equal to this one.
    pub fn copy(&self, alloc: Global) -> Result<Race, NoMemory>
        ensures { IfOk result (λ copy. copy ≡ self.now) }
    {
        let name = self.name.copy(alloc)?;
        let candidates = copy_words(&self.candidates, alloc)?;
        Ok(Race {
            name,
            candidates,
            votes: self.votes,
        })
    }
}

impl Style {
    /// A style equal to this one.
    pub fn copy(&self, alloc: Global) -> Result<Style, NoMemory>
        ensures { IfOk result (λ copy. copy ≡ self.now) }
    {
        let name = self.name.copy(alloc)?;
        let races = self.races.copy(alloc)?;
        Ok(Style { name, races })
    }
}

impl Fate {
    /// A fate equal to this one.
    pub fn copy(&self, alloc: Global) -> Result<Fate, NoMemory>
        ensures { IfOk result (λ copy. copy ≡ self.now) }
    {
        match self {
            Fate::Unused => Ok(Fate::Unused),
            Fate::Cast(marks) => Ok(Fate::Cast(marks.copy(alloc)?)),
            Fate::Spoiled => Ok(Fate::Spoiled),
            Fate::Audited(paper) => Ok(Fate::Audited(copy_paper(paper, alloc)?)),
            Fate::Voided => Ok(Fate::Voided),
        }
    }
}

impl Draw {
    /// A draw equal to this one.
    pub fn copy(&self, alloc: Global) -> Result<Draw, NoMemory>
        ensures { IfOk result (λ copy. copy ≡ self.now) }
    {
        match self {
            Draw::Full => Ok(Draw::Full),
            Draw::Public(bytes) => Ok(Draw::Public(bytes.copy(alloc)?)),
        }
    }
}

/// Words equal to these, in the same order.
pub fn copy_words(words: &Items<Word>, alloc: Global) -> Result<Items<Word>, NoMemory>
    ensures { IfOk result (λ copy. copy ≡ words.now) }
{
    let mut copy = Items::with_room(alloc, words.len())?;
    for at in 0..words.len() {
        copy.push(words.get(at).copy(alloc)?)?;
    }
    Ok(copy)
}

/// Races equal to these, in the same order.
pub fn copy_races(races: &Items<Race>, alloc: Global) -> Result<Items<Race>, NoMemory>
    ensures { IfOk result (λ copy. copy ≡ races.now) }
{
    let mut copy = Items::with_room(alloc, races.len())?;
    for at in 0..races.len() {
        copy.push(races.get(at).copy(alloc)?)?;
    }
    Ok(copy)
}

/// Styles equal to these, in the same order.
fn copy_styles(styles: &Items<Style>, alloc: Global) -> Result<Items<Style>, NoMemory>
    ensures { IfOk result (λ copy. copy ≡ styles.now) }
{
    let mut copy = Items::with_room(alloc, styles.len())?;
    for at in 0..styles.len() {
        copy.push(styles.get(at).copy(alloc)?)?;
    }
    Ok(copy)
}

/// A paper equal to this one.
pub fn copy_paper(paper: &Paper, alloc: Global) -> Result<Paper, NoMemory>
    ensures { IfOk result (λ copy. copy ≡ paper.now) }
{
    let mut copy = Items::with_room(alloc, paper.len())?;
    for at in 0..paper.len() {
        copy.push(paper.get(at).copy(alloc)?)?;
    }
    Ok(copy)
}
