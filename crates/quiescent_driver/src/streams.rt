// The tokens that an iteration takes from the input streams.
ghost use Rattle.std.specs.Prelude.{◌≡◌, ◌*◌, drop, length, map, take, IfOk};
ghost use Rattle.pisdf_meaning.specs.Run.{first_lack, taken};
ghost use Rattle.quiescent_driver.specs.Streams.{rest_of};
ghost use Rattle.quiescent_driver.specs.LackSeen.{lack_seen};

use sdf_level::List;
use std::alloc::{AllocError, Global};

/// The streams of a run, one for each input of the top graph.
#[derive(Clone, Copy)]
pub struct Streams<'a> {
    /// How many tokens an iteration takes from each.
    pub needs: &'a [u32],
    /// The tokens of each, from the first iteration's on.
    pub tokens: &'a [List<i64>],
}

/// A stream in which an iteration finds fewer tokens than it needs.
#[derive(Clone, Copy)]
pub struct Lack {
    /// Its place among the streams.
    pub stream: usize,
    /// How many tokens are left in it.
    pub has: u64,
    /// How many the iteration needs.
    pub needs: u32,
}

/// How many tokens so many iterations take.
fn taken_by(done: u32, need: u32) -> usize
    ensures { result ≡ done * need }
{
    done as usize * need as usize
}

/// The tokens that are left after so many iterations.
fn rest(tokens: &[i64], done: u32, need: u32) -> &[i64]
    ensures { result.now ≡ drop (done * need) tokens.now }
{
    let start = taken_by(done, need).min(tokens.len());
    &tokens[start..]
}

/// The first tokens, as many as an iteration needs.
fn first(alloc: Global, tokens: &[i64], need: u32) -> Result<List<i64>, AllocError>
    ensures { IfOk result (λ l. l ≡ take need tokens.now) }
{
    let end = (need as usize).min(tokens.len());
    Ok(List::new(Vec::from_slice(alloc, &tokens[..end])?))
}

impl Streams<'_> {
    /// The first stream that lacks tokens after so many iterations, if one does.
    pub fn first_lack(&self, done: u32) -> Option<Lack>
        requires { length self.now.needs.now ≡ length self.now.tokens.now }
        ensures { lack_seen result ≡ first_lack 0 self.now.needs.now (rest_of done self.now.needs.now self.now.tokens.now) }
    {
        first_lack(self.needs, self.tokens, done)
    }

    /// The tokens that an iteration takes from each stream after so many iterations: as many as it needs, where no stream lacks
    /// any.
    ///
    /// # Errors
    ///
    /// Want of memory.
    pub fn taken(&self, alloc: Global, done: u32) -> Result<Vec<List<i64>>, AllocError>
        requires { length self.now.needs.now ≡ length self.now.tokens.now }
        ensures { IfOk result (λ v. v.items ≡ taken self.now.needs.now (rest_of done self.now.needs.now self.now.tokens.now)) }
    {
        taken(alloc, self.needs, self.tokens, done)
    }

    /// How many tokens are left in each stream after so many iterations.
    ///
    /// # Errors
    ///
    /// Want of memory.
    pub(crate) fn left(&self, alloc: Global, done: u32) -> Result<List<u64>, AllocError>
        requires { length self.now.needs.now ≡ length self.now.tokens.now }
        ensures { IfOk result (λ l. l ≡ map (λ t. length t) (rest_of done self.now.needs.now self.now.tokens.now)) }
    {
        left(alloc, self.needs, self.tokens, done)
    }
}

fn first_lack(needs: &[u32], tokens: &[List<i64>], done: u32) -> Option<Lack>
    requires { length needs.now ≡ length tokens.now }
    ensures { lack_seen result ≡ first_lack 0 needs.now (rest_of done needs.now tokens.now) }
{
    for stream in 0..tokens.len() {
        let need = needs[stream];
        let rest = rest(tokens[stream].items(), done, need);
        if rest.len() < need as usize {
            return Some(Lack {
                stream,
                has: rest.len() as u64,
                needs: need,
            });
        }
    }
    None
}

fn taken(
    alloc: Global,
    needs: &[u32],
    tokens: &[List<i64>],
    done: u32,
) -> Result<Vec<List<i64>>, AllocError>
    requires { length needs.now ≡ length tokens.now }
    ensures { IfOk result (λ v. v.items ≡ taken needs.now (rest_of done needs.now tokens.now)) }
{
    let mut ins = Vec::with_capacity(alloc, tokens.len())?;
    for stream in 0..tokens.len() {
        let need = needs[stream];
        ins.push(first(alloc, rest(tokens[stream].items(), done, need), need)?)?;
    }
    Ok(ins)
}

fn left(
    alloc: Global,
    needs: &[u32],
    tokens: &[List<i64>],
    done: u32,
) -> Result<List<u64>, AllocError>
    requires { length needs.now ≡ length tokens.now }
    ensures { IfOk result (λ l. l ≡ map (λ t. length t) (rest_of done needs.now tokens.now)) }
{
    let mut counts = Vec::with_capacity(alloc, tokens.len())?;
    for stream in 0..tokens.len() {
        counts.push(rest(tokens[stream].items(), done, needs[stream]).len() as u64)?;
    }
    Ok(List::new(counts))
}
