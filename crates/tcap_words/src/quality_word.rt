//! The word of a temporal capability that holds one of its qualities.

ghost use Rattle.std.specs.Prelude.{◌≡◌, IfSome, Some, None};
ghost use Rattle.spk_nums.specs.Spelling.{IsOneSpelling};
ghost use Rattle.tcap_words.specs.Quality.{QualityFits, word_of_quality, quality_of_word};
ghost use Rattle.tcap_words.specs.declared.quality_word.QualityWord.{QualityWord};

/// A scheduler, below 64, and the quality that it gave, 1 to 2^24 - 1; or none.
#[derive(Clone, Copy, PartialEq, Eq, Debug)]
pub struct QualityWord(pub Option<(u8, u32)>);

impl QualityWord {
    /// The quality's word. The scheduler is below 64, and the quality from 1 to 2^24 - 1.
    #[inline]
    #[tactic(auto, unfolding(crate::specs::Quality::word_of_quality))]
    pub fn pack(self) -> u64
        requires { QualityFits self }
        ensures { result ≡ word_of_quality self }
    {
        match self.0 {
            None => 0,
            Some((scheduler, quality)) => quality as u64 + ((scheduler as u64) << 24),
        }
    }

    /// The quality word whose word this is; None exactly where it is the word of none.
    #[inline]
    #[tactic(auto, using(crate::proofs::QualityLemmas::quality_spells))]
    pub fn unpack(word: u64) -> Option<QualityWord>
        ensures value { result ≡ quality_of_word word }
        ensures reads { (v : QualityWord) → QualityFits v → word_of_quality v ≡ word → result ≡ Some v }
        ensures spells { IfSome result (λ v. QualityFits v × (word_of_quality v ≡ word)) }
    {
        read(word)
    }
}

/// The pair of a word, where both numbers are within their ranges.
#[inline]
#[tactic(auto, unfolding(crate::specs::Quality::quality_of_word))]
fn read(word: u64) -> Option<QualityWord>
    ensures { result ≡ quality_of_word word }
{
    let quality = word & 0xff_ffff;
    let scheduler = word >> 24;
    if word == 0 {
        Some(QualityWord(None))
    } else if 1 <= quality && scheduler < 64 {
        Some(QualityWord(Some((scheduler as u8, quality as u32))))
    } else {
        None
    }
}

/// Each quality word within its ranges has one word, and is read from that word alone. The word of none is 0.
pub fn quality_spelling()
    ensures spelling { IsOneSpelling QualityFits word_of_quality quality_of_word }
    ensures none { word_of_quality (record { 0 = None }) ≡ 0 }
{}
