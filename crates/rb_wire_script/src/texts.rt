// Texts with an index.

ghost use Rattle.std.specs.Prelude.{◌≡◌, [], ◌∷◌, ◌++◌, false, length, OnOk, OnErr};
ghost use Rattle.rb_meaning_bytes.specs.formats.Pools.{is_among, place_in, with_text};
ghost use Rattle.rb_wire_script.specs.Places.{place_of};

use rb_trees::{Memory, Seq, Shared, Word};
use std::alloc::Global;
use std::collections::BTreeMap;
use std::marker::Model;

/// Texts in order, each once, with the place of each, so that finding one doesn't walk them. They are ordered and not
/// hashed, so that no choice of texts makes it slow. Contracts see the list.
#[derive(Drop)]
pub(crate) struct Texts<'a> {
    texts: Seq<Shared<Word>>,
    places: BTreeMap<&'a [u8], usize>,
}

impl<'a> Model for Texts<'a> {
    ghost use Rattle.std.specs.Prelude.{ℕ, List};
    ghost use Rattle.rb_wire_script.specs.Places.{Placed};

    ghost Value = { List (List ℕ) };

    ghost view = { λ w. w.texts };

    ghost invariant = { λ w. Placed w.places w.texts };
}

impl<'a> Texts<'a> {
    /// No texts.
    pub(crate) fn new(alloc: Global) -> Texts<'a>
        ensures { result ≡ [] }
    {
        Texts {
            texts: Seq::new(alloc),
            places: BTreeMap::new(alloc),
        }
    }

    /// The first place of a text.
    fn find(&self, text: &[u8]) -> Option<usize>
        ensures { result ≡ place_of self.now text.now }
    {
        self.places.get(text).copied()
    }

    /// Whether the text is one of them.
    #[tactic(auto, using(crate::proofs::Placing::has_place))]
    pub(crate) fn has(&self, text: &[u8]) -> bool
        ensures { result ≡ is_among text.now self.now }
    {
        self.find(text).is_some()
    }

    /// The place of a text; how many there are, where it is none of them.
    #[tactic(auto, using(crate::proofs::Placing::has_place_in))]
    pub(crate) fn place(&self, text: &[u8]) -> usize
        ensures { result ≡ place_in self.now text.now }
    {
        match self.find(text) {
            Some(place) => place,
            None => self.texts.len(),
        }
    }

    /// How many there are.
    pub(crate) fn len(&self) -> usize
        ensures { result ≡ length self.now }
    {
        self.texts.len()
    }

    /// The texts.
    pub(crate) fn texts(&self) -> &[Shared<Word>]
        ensures { result.now ≡ self.now }
    {
        self.texts.as_slice()
    }

    /// The texts alone.
    pub(crate) fn into_texts(self) -> Seq<Shared<Word>>
        ensures { result ≡ self.entry }
    {
        let Texts { texts, .. } = self;
        texts
    }

    /// Adds a text at the end, which stands at `key`, too. After an error nothing changed.
    pub(crate) fn push(&mut self, key: &'a [u8], text: Shared<Word>) -> Result<(), Memory>
        requires key { key.now ≡ text }
        requires new { is_among key.now self.old ≡ false }
        ensures ok { OnOk result (self.new ≡ self.old ++ text ∷ []) }
        ensures err { OnErr result (self.new ≡ self.old) }
    {
        let place = self.texts.len();
        self.texts.push(text)?;
        match self.places.insert(key, place) {
            Ok(_before) => Ok(()),
            Err(_failed) => {
                self.texts.truncate(place);
                Err(Memory)
            }
        }
    }

    /// Adds a text at the end, where it is new. After an error nothing changed.
    #[tactic(auto, using(std::proofs::lemmas::Grind::common_steps))]
    pub(crate) fn note(&mut self, text: &'a Shared<Word>) -> Result<(), Memory>
        ensures ok { OnOk result (self.new ≡ with_text self.old text.now) }
        ensures err { OnErr result (self.new ≡ self.old) }
    {
        let key = text.get().as_slice();
        if self.has(key) {
            return Ok(());
        }
        self.push(key, text.share()?)
    }
}
