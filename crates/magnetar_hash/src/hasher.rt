// SHA3-256 of a domain and one more part, which is fed piece by piece: the sponge goes by value between the pieces. A fill of a
// block or more, which no function here hands back, counts modulo the rate.
ghost use Rattle.std.specs.Prelude.{◌≡◌};
ghost use Rattle.magnetar_hash.specs.Bytes.{word_bytes};
ghost use Rattle.magnetar_hash.specs.Sponge.{fed, finished, started, within};

// The 25 lanes of a state, and how many bytes of a block have been added to it.
#[derive(Clone, Copy)]
pub struct Sponge {
    pub lanes: [u64; 25],
    pub fill: usize,
}

// The sponge that has taken in the count of the two parts, the domain, and the length of the second part.
pub fn start(domain: &[u8], size: u64) -> Sponge
    ensures { result ≡ started domain.now size }
{
    let mut sponge = Sponge::empty();
    sponge.feed_word(2);
    sponge.feed_part(domain);
    sponge.feed_word(size);
    sponge
}

// The sponge with its fill within a block.
fn within(s: Sponge) -> Sponge
    ensures { result ≡ within s }
{
    let lanes = s.lanes;
    Sponge {
        lanes,
        fill: s.fill % 136,
    }
}

// The bytes of words are taken in.
pub fn feed(s: Sponge, words: &[u64]) -> Sponge
    ensures { result ≡ fed (within s) (word_bytes words.now) }
{
    let mut t = within(s);
    t.feed_words(words);
    t
}

// The hash of all that has been taken in.
pub fn finish(s: Sponge) -> [u8; 32]
    ensures { result ≡ finished (within s) }
{
    within(s).finish()
}
