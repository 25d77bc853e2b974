ghost use Rattle.std.specs.Prelude.{◌≡◌};
ghost use Rattle.serde_json.specs.View.{view};
ghost use Rattle.graph_format.specs.Walk.{has_form};
ghost use Rattle.graph_format.specs.Objects.{delay_at, fifo_at, fifo_keys, optional_fifo_keys, life_at, life_from, zeros_from};

use crate::place::Place;
use crate::shape::{Form, Whole, has_form, items, member, member_or};
use crate::text::End;
use crate::versions::has_lives;
use graph_format::{FileDelay, FileFifo};
use param_expr::Name;
use pisdf_model::{DetailFault, Life};
use serde_json::Value;
use std::alloc::Global;

/// So many tokens 0.
fn zeros(count: i64) -> Option<FileDelay>
    ensures { result ≡ zeros_from count }
{
    if count < 0 {
        None
    } else {
        Some(FileDelay::Zeros(count as u64))
    }
}

/// A number of tokens 0, or a list of tokens.
struct Delay;

impl Form for Delay {
    type Stated = FileDelay;

    ghost reads = { λ _. delay_at };

    #[tactic(auto, unfolding(graph_format::specs::Objects::delay_at))]
    fn read_at(
        &self,
        alloc: Global,
        place: &Place<'_>,
        value: &Value,
    ) -> Result<FileDelay, DetailFault<Name>> {
        if let Some(values) = value.as_array() {
            let tokens = items(alloc, place, values.as_slice(), &Whole)?;
            return Ok(FileDelay::Tokens(tokens));
        }
        match value.as_i64().and_then(zeros) {
            Some(delay) => Ok(delay),
            None => Err(place.misshapen(alloc)),
        }
    }
}

fn life_from(text: &str) -> Option<Life>
    ensures { result ≡ life_from text.now }
{
    if text == "firing" {
        Some(Life::Firing)
    } else if text == "permanent" {
        Some(Life::Permanent)
    } else {
        None
    }
}

/// The life of a delay.
struct StatedLife;

impl Form for StatedLife {
    type Stated = Life;

    ghost reads = { λ _. life_at };

    fn read_at(
        &self,
        alloc: Global,
        place: &Place<'_>,
        value: &Value,
    ) -> Result<Life, DetailFault<Name>> {
        match value.as_str().and_then(life_from) {
            Some(life) => Ok(life),
            None => Err(place.misshapen(alloc)),
        }
    }
}

/// Whether a value has the members of a FIFO in this version of the format, and no others.
fn has_fifo_form(version: u32, value: &Value) -> bool
    ensures { result ≡ has_form fifo_keys (optional_fifo_keys version) (view value.now) }
{
    if has_lives(version) {
        has_form(value, &["from", "to"], &["delay", "life"])
    } else {
        has_form(value, &["from", "to"], &["delay"])
    }
}

/// A FIFO in this version of the format.
#[derive(Clone, Copy)]
pub(crate) struct Fifo {
    pub(crate) version: u32,
}

impl Form for Fifo {
    type Stated = FileFifo;

    ghost reads = { λ fifo. fifo_at fifo.version };

    #[tactic(auto, unfolding(graph_format::specs::Objects::fifo_at, graph_format::specs::Objects::fifo_members_at))]
    fn read_at(
        &self,
        alloc: Global,
        place: &Place<'_>,
        value: &Value,
    ) -> Result<FileFifo, DetailFault<Name>> {
        if !has_fifo_form(self.version, value) {
            return Err(place.misshapen(alloc));
        }
        let from = member(alloc, place, value, "from", &End)?;
        let to = member(alloc, place, value, "to", &End)?;
        let delay = member_or(alloc, place, value, "delay", &Delay, FileDelay::Zeros(0))?;
        let life = member_or(alloc, place, value, "life", &StatedLife, Life::Firing)?;
        Ok(FileFifo {
            from,
            to,
            delay,
            life,
        })
    }
}
