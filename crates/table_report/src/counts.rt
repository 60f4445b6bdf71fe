//! The references to each frame, as its count words show them.

ghost use Rattle.std.specs.Prelude.{◌≡◌, ◌<◌};
ghost use Rattle.std.specs.List.{range_with_len};
ghost use Rattle.table_lines.specs.kernel_history.specs.FinalWords.{word_in};
ghost use Rattle.table_lines.specs.kernel_history.specs.Counts.{counters, count_at, count_in, count_sum};
ghost use Rattle.table_report.specs.Shown.{counted_at};

use frame_words::{CountWord, residue};
use machine_image::Image;
use spk_nums::{CoreNo, FrameNo};

// The count that a count word shows; 0 where the word is none.
fn count(word: Option<CountWord>) -> i32
    ensures { result ≡ count_in word }
{
    match word {
        Some(word) => word.count,
        None => 0,
    }
}

// The sum of the counts that the count words of a frame show.
fn count_sum(image: &Image<'_>, frame: FrameNo) -> i64
    requires frame_in { frame < image.now.shape.frames }
    ensures { result ≡ count_sum (count_at (word_in image.now.shape image.now.words) frame) (counters image.now.shape.cores) }
{
    let mut sum = 0;
    'counters: for counter in 0..image.cores() {
        sum += i64::from(count(image.count(frame, CoreNo::new(counter))));
    }
    sum
}

/// The references to a frame that its count words show: the sum of their counts, modulo 2^16. The frame is below the
/// machine's frames.
pub fn references(image: &Image<'_>, frame: FrameNo) -> u64
    requires frame_in { frame < image.now.shape.frames }
    ensures { result ≡ counted_at image.now.shape image.now.words frame }
{
    u64::from(residue(count_sum(image, frame)))
}
