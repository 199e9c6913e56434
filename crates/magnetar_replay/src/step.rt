// What is done with a transcript, by value: OP STATE CTR LABEL, and then what is absorbed, or how many elements are drawn into how many
// words.
ghost use Rattle.std.specs.Prelude.{◌≡◌, IfOk, OnOk, option_map};
ghost use Rattle.std.specs.Io.KnownBytes.{Appends};
ghost use Rattle.magnetar_replay.specs.Lists.{marked_words};
ghost use Rattle.magnetar_hash.specs.Transcript.{answer_of, draw_answer_of};
ghost use Rattle.magnetar_replay.specs.Steps as steps;

use crate::line;
use crate::line::Strings;
use crate::show::{Element, State, Words};
use magnetar_field::gf128::Gf128;
use magnetar_field::refusal::Refusal;
use magnetar_hash::transcript;
use magnetar_hash::transcript::{Drawn, Transcript};
use std::alloc::{AllocError, Global};
use std::io;
use std::io::Write;

// How many words are lent at most.
const MOST_WORDS: usize = 4096;

// One step.
#[derive(Clone, Copy)]
pub enum Step<'a> {
    Bytes(&'a [u8]),
    Number(u64),
    Digest([u8; 32]),
    Elements(&'a [u64]),
    Draw,
    // So many elements, into so many words.
    Draws(usize, usize),
}

// What a step leaves: the element drawn, if any, the transcript, and the words lent.
#[derive(PartialEq, Drop)]
pub struct Told {
    pub answer: Result<Option<Gf128>, Refusal>,
    pub transcript: Transcript,
    pub words: Vec<u64>,
}

// What a step leaves that draws no element, or several.
fn leave(t: Transcript, next: Result<Transcript, Refusal>, words: Vec<u64>) -> Told
    ensures { steps.left_of result ≡ steps.left_by (answer_of t next) words.items }
{
    match next {
        Ok(transcript) => Told {
            answer: Ok(None),
            transcript,
            words,
        },
        Err(refusal) => Told {
            answer: Err(refusal),
            transcript: t,
            words,
        },
    }
}

// What a step leaves that draws one.
#[tactic(auto, using(crate::proofs::StepLaws::refused_number))]
fn leave_drawn(t: Transcript, drawn: Result<Drawn, Refusal>, words: Vec<u64>) -> Told
    ensures { steps.left_of result ≡ steps.left_drawn (draw_answer_of t drawn) words.items }
{
    match drawn {
        Ok(d) => Told {
            answer: Ok(Some(d.element)),
            transcript: d.transcript,
            words,
        },
        Err(refusal) => Told {
            answer: Err(refusal),
            transcript: t,
            words,
        },
    }
}

impl<'a> Step<'a> {
    // The step that a query asks for; nothing where it asks for none.
    #[tactic(auto, unfolding(crate::specs::Steps::step_named))]
    pub fn named(name: &[u8], nums: &'a [u64], strings: &'a Strings) -> Option<Step<'a>>
        ensures { option_map steps.meant result ≡ steps.step_named name.now nums.now strings.now.bytes.items strings.now.lens.items }
    {
        let data = strings.at(3);
        if line::is(name, b"absorb") {
            Some(Step::Bytes(data))
        } else if line::is(name, b"absorbu64") {
            Some(Step::Number(line::at(nums, 3)))
        } else if line::is(name, b"absorbdigest") {
            Some(Step::Digest(line::digest(data)))
        } else if line::is(name, b"absorbfield") {
            Some(Step::Elements(line::list_from(nums, 3, 0)))
        } else if line::is(name, b"draw") {
            Some(Step::Draw)
        } else if line::is(name, b"drawvec") {
            Some(Step::Draws(line::size(nums, 3), line::size(nums, 4)))
        } else {
            None
        }
    }

    // The words that are lent for it.
    pub fn room(self, alloc: Global) -> Result<Vec<u64>, AllocError>
        ensures { IfOk result (λ v. v.items ≡ marked_words (steps.lent_for (steps.meant self.entry))) }
    {
        match self {
            Step::Draws(_, lent) => line::marked(alloc, lent.min(MOST_WORDS)),
            _ => line::marked(alloc, 0),
        }
    }

    // The step with the transcript t by value.
    #[tactic(auto, unfolding(crate::specs::Steps::step_left))]
    pub fn by_value(self, alloc: Global, t: Transcript, label: &[u8]) -> Result<Told, AllocError>
        ensures { IfOk result (λ told. steps.left_of told ≡ steps.step_left (steps.meant self.entry) t label.now) }
    {
        let mut words = self.room(alloc)?;
        match self {
            Step::Bytes(bytes) => Ok(leave(t, transcript::absorb_bytes(t, label, bytes), words)),
            Step::Number(v) => Ok(leave(t, transcript::absorb_u64(t, label, v), words)),
            Step::Digest(d) => Ok(leave(t, transcript::absorb_digest(t, label, &d), words)),
            Step::Elements(s) => Ok(leave(t, transcript::absorb_field(t, label, s), words)),
            Step::Draws(n, _) => {
                let next = transcript::challenge_field_vec(t, label, n, words.as_mut_slice());
                Ok(leave(t, next, words))
            }
            Step::Draw => Ok(leave_drawn(t, transcript::challenge_field(t, label), words)),
        }
    }

    // The number of a refusal, or the element where one is asked for, and the transcript; of several draws the words, the number and the
    // transcript.
    pub fn write<W: Write>(self, out: &mut W, told: &Told) -> io::Result<()>
        ensures { OnOk result
            (Appends (W.contents out.old) (W.contents out.new) (steps.step_line (steps.meant self.entry) (steps.left_of told.now))) }
    {
        let state = State(told.transcript);
        if let Step::Draws(_, _) = self {
            let words = Words(told.words.as_slice());
            let number = told.answer.map_or_else(|r| r.number(), |_| 0);
            return writeln!(out, "= {words} {number} {state}");
        }
        match told.answer {
            Ok(None) => writeln!(out, "= {state}"),
            Ok(Some(e)) => {
                let e = Element(e);
                writeln!(out, "= {e} {state}")
            }
            Err(refusal) => {
                let number = refusal.number();
                writeln!(out, "! {number} {state}")
            }
        }
    }
}
