// The stream of words of one seed and one sample, read at any place.

ghost use Rattle.std.specs.Prelude.{◌≡◌, ◌+◌, ◌*◌, ◌^◌, ◌<◌, ◌≤◌};
ghost use Rattle.tl_bits.specs.Bits.{key, word};
ghost use Rattle.tl_bits.specs.Ring.{HoldsWords, IsBlock, IsHeld, PutsBlock, PutsWords};

use rand_chacha::ChaCha20Rng;
use rand_core::SeedableRng;
use rand_core::utils::NextWord;
use std::marker::Model;

// The generator of the words of one seed and one sample. The seed's bytes are the first of the key.
fn generator(seed: u64, sample: u32) -> ChaCha20Rng
    ensures { result ≡ record { key = key seed; stream = sample; word_pos = 0 } }
{
    let mut key = [0; 32];
    key[..8].copy_from_slice(&seed.to_le_bytes());
    let mut generator = ChaCha20Rng::from_seed(key);
    generator.set_stream(u64::from(sample));
    generator
}

// The next block of the generator. It is written out, so that the compiler follows the generator's place.
#[inline(always)]
fn block(generator: &mut ChaCha20Rng) -> [u32; 16]
    requires { generator.old.word_pos + 16 < 2 ^ 68 }
    ensures words { IsBlock generator.old result }
    ensures after { generator.new ≡ record generator.old { word_pos = generator.old.word_pos + 16 } }
{
    [
        generator.next_word(),
        generator.next_word(),
        generator.next_word(),
        generator.next_word(),
        generator.next_word(),
        generator.next_word(),
        generator.next_word(),
        generator.next_word(),
        generator.next_word(),
        generator.next_word(),
        generator.next_word(),
        generator.next_word(),
        generator.next_word(),
        generator.next_word(),
        generator.next_word(),
        generator.next_word(),
    ]
}

// Word k of the stream has the place k mod 128 in a ring. This puts the block of this number there.
#[inline(always)]
fn put_block(ring: &mut [u32; 128], number: u64, words: &[u32; 16])
    requires { number < 2 ^ 59 }
    ensures { PutsBlock ring.old ring.new number words.now }
{
    let at = 16 * (number % 8) as usize;
    ring[at..at + 16].copy_from_slice(words);
}

// Computes four blocks, as the generator does it at once, and puts them into a ring. To send the generator to
// the beginning of a block costs nothing, since it computes none until then.
fn put_blocks(generator: &mut ChaCha20Rng, ring: &mut [u32; 128], number: u64)
    requires { number < 2 ^ 58 }
    ensures words { PutsWords generator.old.key generator.old.stream ring.old ring.new
        (16 * number) (16 * number + 64) }
    ensures key { generator.new.key ≡ generator.old.key }
    ensures stream { generator.new.stream ≡ generator.old.stream }
{
    generator.set_word_pos(u128::from(16 * number));
    let first = block(generator);
    let second = block(generator);
    let third = block(generator);
    let fourth = block(generator);
    put_block(ring, number, &first);
    put_block(ring, number + 1, &second);
    put_block(ring, number + 2, &third);
    put_block(ring, number + 3, &fourth);
}

// The words that a ring has: so many, from the first word of a block on. It begins with none, and then has those of four
// or of eight blocks.
#[derive(Clone, Copy)]
struct Held {
    first: u64,
    count: u64,
}

// Moves a ring that has these words so that it has word `k`, and tells what it has then. Times are read in runs, and
// mostly from a late time to an early one, so the ring goes by four blocks either way: runs of up to 64 words that follow
// one another, upwards or downwards, cost each block once.
fn move_ring(generator: &mut ChaCha20Rng, ring: &mut [u32; 128], held: Held, k: u64) -> Held
    requires held { HoldsWords generator.old.key generator.old.stream ring.old held.first (held.first + held.count) }
    requires shape { IsHeld held }
    requires near { k < 2 ^ 48 }
    ensures held { HoldsWords generator.old.key generator.old.stream ring.new result.first (result.first + result.count) }
    ensures shape { IsHeld result }
    ensures begins { result.first ≤ k }
    ensures ends { k < result.first + result.count }
    ensures key { generator.new.key ≡ generator.old.key }
    ensures stream { generator.new.stream ≡ generator.old.stream }
{
    let end = held.first + held.count;
    if held.count > 0 && end <= k && k < end + 64 {
        put_blocks(generator, ring, end / 16);
        return Held {
            first: end - 64,
            count: 128,
        };
    }
    if held.count > 0 && k < held.first && held.first <= k + 64 && 64 <= held.first {
        put_blocks(generator, ring, held.first / 16 - 4);
        return Held {
            first: held.first - 64,
            count: 128,
        };
    }
    // with the blocks below, since times are read downwards
    let number = (k / 16).saturating_sub(3);
    put_blocks(generator, ring, number);
    Held {
        first: 16 * number,
        count: 64,
    }
}

#[derive(Drop)]
pub(crate) struct WordStream {
    generator: ChaCha20Rng,
    held: Held,
    ring: [u32; 128],
}

impl Model for WordStream {
    ghost use Rattle.tl_bits.specs.Sources.{Stream, seed_of_key};

    ghost Value = { Stream };

    ghost view = { λ s. record { seed = seed_of_key s.generator.key; sample = s.generator.stream } };

    ghost use Rattle.tl_bits.specs.WordStream.{IsStream};

    ghost invariant = { IsStream };
}

impl WordStream {
    pub(crate) fn new(seed: u64, sample: u32) -> WordStream
        ensures { result ≡ record { seed = seed; sample = sample } }
    {
        WordStream {
            generator: generator(seed, sample),
            held: Held { first: 0, count: 0 },
            ring: [0; 128],
        }
    }

    // Word `k`.
    #[inline]
    pub(crate) fn word(&mut self, k: u64) -> u32
        requires { k < 2 ^ 48 }
        ensures value { result ≡ word self.old.seed self.old.sample k }
        ensures same { self.new ≡ self.old }
    {
        if k.wrapping_sub(self.held.first) < self.held.count {
            self.ring[(k % 128) as usize]
        } else {
            self.load(k)
        }
    }

    // Word `k`, to which the ring is moved.
    #[cold]
    #[inline(never)]
    fn load(&mut self, k: u64) -> u32
        requires { k < 2 ^ 48 }
        ensures value { result ≡ word self.old.seed self.old.sample k }
        ensures same { self.new ≡ self.old }
    {
        self.held = move_ring(&mut self.generator, &mut self.ring, self.held, k);
        self.ring[(k % 128) as usize]
    }
}
