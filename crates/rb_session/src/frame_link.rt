// A link over two ends, to which requests go and from which replies come as frames.

ghost use Rattle.std.specs.Prelude.{◌≡◌, ◌≤◌, [], ◌∷◌, ◌++◌, length};
ghost use Rattle.rb_meaning.specs.Answers.{longest_request};
ghost use Rattle.rb_base.specs.Links.{pair_of};
ghost use Rattle.rb_session.specs.FrameLinks.{all_paired, ends_of, ExchangesFrames};

use crate::histories::History;
use crate::receiving::{receive, send};
use rb_base::{Link, LinkStop, Reply, Sink, Source};
use rb_heap::Heap;
use rb_trees::{Seq, Word};
use std::alloc::Global;
use std::marker::Model;

/// A link to whatever is behind two ends: requests are written to a sink, and replies are read from a source.
///
/// An exchange that is answered writes just the request's frame and takes just the reply's. It fails where a write or a read
/// does; before that a front of the request's frame was written. Where the reply breaks its form or ends too early, the answer
/// keeps the bytes that were taken of it. A reply is read in pieces, so its announced length makes no room by itself.
///
/// It tells its pairs and no server; so it is never honest nor quiet as far as it tells. The pairs are a history that only proofs read, so
/// that exchanges leave nothing in memory. Its count of faults is the sum of those of its ends, and stands still at the end of a
/// `u64`.
#[derive(Drop)]
pub struct FrameLink<S, K> {
    alloc: Global,
    source: S,
    sink: K,
    pairs: History<Word, Reply>,
}

impl<S, K> Model for FrameLink<S, K> {
    ghost use Rattle.rb_session.specs.Codes.{ends_code};
    ghost use Rattle.rb_session.specs.FrameLinks.{LinkOverEnds, all_paired};

    ghost Value = { LinkOverEnds S K };

    ghost coded = { ends_code S.code K.code };

    ghost view = { λ it. record { source = it.source; sink = it.sink; pairs = all_paired it.pairs.items } };
}

impl<S, K> FrameLink<S, K> {
    /// A link over two ends, over which nothing was exchanged yet.
    pub fn make(alloc: Global, source: S, sink: K) -> FrameLink<S, K>
        ensures { result ≡ record { source = source; sink = sink; pairs = [] } }
    {
        FrameLink {
            alloc,
            source,
            sink,
            pairs: History::new(),
        }
    }

    /// The end from which replies come.
    pub fn source(&self) -> &S
        ensures { result.now ≡ self.now.source }
    {
        &self.source
    }

    /// The end to which requests go.
    pub fn sink(&self) -> &K
        ensures { result.now ≡ self.now.sink }
    {
        &self.sink
    }

    /// The two ends.
    pub fn into_ends(self) -> (S, K)
        ensures { result ≡ (self.source, self.sink) }
    {
        (self.source, self.sink)
    }
}

// The history with a request and its reply more.
#[tactic(auto, using(crate::proofs::Paired::one_more_paired))]
fn with_pair(pairs: &History<Word, Reply>, request: &Word, reply: &Reply) -> History<Word, Reply>
    ensures { all_paired result.items ≡ all_paired pairs.now.items ++ pair_of request.now reply.now ∷ [] }
{
    pairs.and(request, reply)
}

impl<S: Source, K: Sink> Link for FrameLink<S, K> {
    ghost use Rattle.std.specs.Prelude.{Some, false};
    ghost use Rattle.rb_session.specs.FrameLinks.{pairs_alone, faults_of_ends};

    ghost told = { λ it. Some (pairs_alone it) };

    ghost faults = { faults_of_ends S.faults K.faults };

    ghost lends = { λ it. false };

    ghost honest = { λ it. ⊥ };

    ghost quiet = { λ it. ⊥ };

    fn exchange(&mut self, request: &[u8]) -> Result<Reply, LinkStop>
        requires { length request.now ≤ longest_request }
        ensures { ExchangesFrames request.now result (ends_of S.Source K.Sink self.old) (ends_of S.Source K.Sink self.new) }
    {
        let sent = Seq::from_slice(self.alloc, request)?;
        send(self.alloc, &mut self.sink, request)?;
        let reply = receive(self.alloc, &mut self.source)?;
        self.pairs = with_pair(&self.pairs, &sent, &reply);
        Ok(reply)
    }

    fn table(&self) -> Option<&Heap> {
        None
    }

    ghost honest_tells = { λ l h. absurd h };
}
