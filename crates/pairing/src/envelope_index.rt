//! The numbers of envelopes, so that what is kept of an envelope is found by a number.
//!
//! Envelopes are numbered by `indexmap` in the order of their first use. Before it is asked, one of 65,536
//! cells is, which the envelope's fields choose: there is the number of the envelope of that cell that was
//! looked up last. The envelope with that number is compared with the one that is asked for, so any number
//! may be in a cell.
//!
//! A number that was given for a call which is then refused stays, with empty lists, which no look-up
//! shows.

ghost use Rattle.std.specs.Prelude.{◌≡◌, ◌<◌, [], length, Some, IfOk, IfSome, OnErr, OnOk};
ghost use Rattle.std.specs.List.{IsDistinct};
ghost use Rattle.indexmap.specs.IndexSet.{insert_key};
ghost use Rattle.callstore.specs.Envelopes.{same_envelope};
ghost use Rattle.pairing.specs.inner.Matched.{number_in};

use callstore::envelope::Envelope;
use indexmap::IndexSet;
use std::alloc::{AllocError, Global};
use std::marker::Model;

/// So many envelopes at most are found again without a look-up.
const ENVELOPE_CELLS: usize = 65_536;

/// The envelopes that have numbers, from 0 on in the order in which they got them. Contracts see them.
pub(crate) struct EnvelopeIndex {
    envelopes: IndexSet<Envelope>,
    // The number of the envelope that was numbered or looked up last among those whose fields give the cell; 0 at
    // first. What is found there is compared with the envelope that has it, so that the cells may hold any numbers.
    cells: Vec<u32>,
}

// By hand: a derived drop is proved again at each exit of a function that owns one.
impl Drop for EnvelopeIndex {
    fn drop(self) {
        let EnvelopeIndex {
            envelopes: _,
            cells: _,
        } = self;
    }
}

impl Model for EnvelopeIndex {
    ghost use Rattle.std.specs.Prelude.{List};
    ghost use Rattle.callstore.specs.declared.envelope.Envelope.{Envelope as EnvelopeValue};

    ghost Value = { List EnvelopeValue };

    ghost view = { λ n. n.envelopes.keys };
}

/// The number of the cell of an envelope.
#[inline(always)]
fn cell_no(envelope: &Envelope) -> usize
    ensures { result < ENVELOPE_CELLS }
{
    let ends = u64::from(envelope.source) * 0x1_0000 + u64::from(envelope.dest);
    let fields = (ends * 0x1_0000_0000 + u64::from(envelope.tag)).wrapping_add(
        u64::from(envelope.comm) * 0x9e37_79b9,
    );
    (fields.wrapping_mul(0x9e37_79b9_7f4a_7c15) >> 48) as usize % ENVELOPE_CELLS
}

impl EnvelopeIndex {
    /// No envelope has a number yet.
    pub(crate) fn new(alloc: Global) -> Result<EnvelopeIndex, AllocError>
        ensures { IfOk result (λ envelope_index. envelope_index ≡ []) }
    {
        let cells = vec![in alloc; 0u32; ENVELOPE_CELLS]?;
        Ok(EnvelopeIndex {
            envelopes: IndexSet::new(alloc),
            cells,
        })
    }

    /// How many envelopes have a number. None has two.
    pub(crate) fn len(&self) -> usize
        ensures len { result ≡ length self.now }
        ensures unique { IsDistinct same_envelope self.now }
    {
        self.envelopes.len()
    }

    /// The number of an envelope; None where it has none.
    pub(crate) fn get(&self, envelope: &Envelope) -> Option<usize>
        ensures value { result ≡ number_in self.now envelope.now }
        ensures within { IfSome result (λ number. number < length self.now) }
    {
        self.envelopes.get_index_of(envelope)
    }

    /// The number of an envelope, where it is in its cell.
    #[inline(always)]
    pub(crate) fn known(&self, envelope: &Envelope) -> Option<usize>
        ensures { IfSome result (λ number. number_in self.now envelope.now ≡ Some number) }
    {
        let number = *self.cells.get(cell_no(envelope))? as usize;
        // For the proof: no envelope has two numbers.
        let _envelopes = self.len();
        match self.envelopes.get_index(number) {
            Some(known) if *known == *envelope => Some(number),
            _ => None,
        }
    }

    /// Keeps the number of an envelope in its cell.
    fn keep(&mut self, envelope: &Envelope, number: usize)
        ensures { self.new ≡ self.old }
    {
        let cell = cell_no(envelope);
        if cell < self.cells.len() {
            self.cells[cell] = (number & 0xffff_ffff) as u32;
        }
    }

    /// Puts an envelope after the others.
    fn push(&mut self, envelope: Envelope) -> Result<usize, AllocError>
        ensures ok { OnOk result (self.new ≡ insert_key same_envelope self.old envelope) }
        ensures number { IfOk result (λ number. number_in self.new envelope ≡ Some number) }
        ensures err { OnErr result (self.new ≡ self.old) }
    {
        let (number, _) = self.envelopes.insert_full(envelope)?;
        Ok(number)
    }

    /// The number of an envelope, which has one from then on, and is in its cell.
    pub(crate) fn insert(&mut self, envelope: Envelope) -> Result<usize, AllocError>
        ensures ok { OnOk result (self.new ≡ insert_key same_envelope self.old envelope) }
        ensures number { IfOk result (λ number. number_in self.new envelope ≡ Some number) }
        ensures err { OnErr result (self.new ≡ self.old) }
    {
        let number = self.push(envelope)?;
        self.keep(&envelope, number);
        Ok(number)
    }
}
