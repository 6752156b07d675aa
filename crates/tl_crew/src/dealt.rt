//! The words of a sample, for all hands.

ghost use Rattle.std.specs.Prelude.{◌≡◌, ℕ, Bool, All, length};
ghost use Rattle.tl_definitions.specs.Region.{Region};
ghost use Rattle.tl_bits.specs.Bits.{bit_at};
ghost use Rattle.tl_bits.specs.Sources.{numbered_word};
ghost use Rattle.tl_layout.specs.declared.layout.Layout.{Layout};
ghost use Rattle.tl_crew.specs.Bands.{AreSharesIn};
ghost use Rattle.tl_crew.specs.Hands.{AreCoinsOf, numbering};

use crate::apart::Hand;
use tl_bits::Numbered;

fn deal_one(this: &mut Hand<Numbered>, seed: u64, sample: u32, words: u32)
    requires words { this.old.coins.kept.bits.words ≡ words }
    ensures bits { this.new.coins.kept.bits ≡ numbering seed sample words }
    ensures pieces { this.new.coins.pieces ≡ this.old.coins.pieces }
    ensures share { this.new.share ≡ this.old.share }
{
    this.coins.set_bits(Numbered::new(seed, sample, words));
}

/// Sets the words of the sample of this seed and number for all hands.
pub fn deal(hands: &mut [Hand<Numbered>], seed: u64, sample: u32, words: u32)
    requires words { All (λ hand. hand.coins.kept.bits.words ≡ words) hands.old }
    ensures count { length hands.new ≡ length hands.old }
    ensures shares { (l : Layout) → AreSharesIn (λ hand. hand.share) l hands.old → AreSharesIn (λ hand. hand.share) l hands.new }
    ensures coins { (R : Region) (l : Layout) (bits : ℕ → ℕ → Bool)
        → All (λ hand. AreCoinsOf R l bits hand.coins.pieces hand.coins.kept.bits.words (numbered_word hand.coins.kept.bits)) hands.old
        → All (λ hand. AreCoinsOf R l (bit_at (numbered_word (numbering seed sample words)))
        hand.coins.pieces hand.coins.kept.bits.words (numbered_word hand.coins.kept.bits)) hands.new }
{
    for j in 0..hands.len() {
        deal_one(&mut hands[j], seed, sample, words);
    }
}
