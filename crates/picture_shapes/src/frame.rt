//! What stands round a picture: its element, title and styles, the key, the names of the cores, and their lanes.

ghost use Rattle.std.specs.Prelude.{◌≡◌, ◌+◌, ◌*◌, ◌<◌, ◌≤◌, ◌++◌, OnOk, string_bytes};
ghost use Rattle.picture_shapes.specs.Frame.{lane_x, right_x, picture_begin, picture_end, title_begin, title_end, heading_begin, about};
ghost use Rattle.picture_shapes.specs.Frame.{style_shapes, style_discs, style_replies, style_flows, style_races, style_still};
ghost use Rattle.picture_shapes.specs.Frame.{key_bar_shape, key_bar_words};
ghost use Rattle.picture_shapes.specs.Frame.{key_line_shape, key_line_words, key_short_shape, key_short_words, key_done, key_refused};
ghost use Rattle.picture_shapes.specs.Frame.{key_way, key_race_shape, key_race_words, about_left, about_right, style_font};
ghost use Rattle.picture_shapes.specs.Frame.{style_colours, style_sizes, dark_colours, dark_lanes, dark_bars, dark_marks, dark_lines};
ghost use Rattle.picture_shapes.specs.Frame.{core_name, size_begin, view_box};
ghost use Rattle.picture_shapes.specs.Frame.{style_texts, style_bars, style_arrows, style_dark, styles, paper, heads, lane, core_names};
ghost use Rattle.picture_shapes.specs.Frame.{key_bar, key_line, key_short, key_marks, key_race, key};

use std::alloc::AllocError;

/// The left of a core's lane.
#[inline]
pub(crate) fn lane_x(core: u8) -> u32
    ensures value { result ≡ lane_x core }
    ensures least { 68 ≤ result }
    ensures most { result ≤ 18428 }
{
    68 + 72 * u32::from(core)
}

/// Where the right half begins beside so many cores.
#[inline]
pub(crate) fn right_x(cores: u8) -> u32
    ensures value { result ≡ right_x cores }
    ensures most { result ≤ 18432 }
{
    72 + 72 * u32::from(cores)
}

#[tactic(auto, unfolding(crate::specs::Frame::size_begin))]
fn begin_size(text: &mut String, width: u32, height: u32) -> Result<(), AllocError>
    ensures { OnOk result (string_bytes text.new ≡ string_bytes text.old ++ size_begin width height) }
{
    write!(
        text,
        "<svg xmlns='http://www.w3.org/2000/svg' width='{width}' height='{height}'"
    )
}

#[tactic(auto, unfolding(crate::specs::Frame::view_box))]
fn push_view_box(text: &mut String, width: u32, height: u32) -> Result<(), AllocError>
    ensures { OnOk result (string_bytes text.new ≡ string_bytes text.old ++ view_box width height) }
{
    write!(
        text,
        " viewBox='0 0 {width} {height}' role='img' aria-labelledby='t d'>\n"
    )
}

/// Begins a picture of this size.
pub fn begin_picture(text: &mut String, width: u32, height: u32) -> Result<(), AllocError>
    ensures { OnOk result (string_bytes text.new ≡ string_bytes text.old ++ picture_begin width height) }
{
    begin_size(text, width, height)?;
    push_view_box(text, width, height)
}

/// Ends a picture.
#[tactic(auto, unfolding(crate::specs::Frame::picture_end))]
pub fn end_picture(text: &mut String) -> Result<(), AllocError>
    ensures { OnOk result (string_bytes text.new ≡ string_bytes text.old ++ picture_end) }
{
    text.push_str("</svg>\n")
}

/// Begins its title.
#[tactic(auto, unfolding(crate::specs::Frame::title_begin))]
pub fn begin_title(text: &mut String) -> Result<(), AllocError>
    ensures { OnOk result (string_bytes text.new ≡ string_bytes text.old ++ title_begin) }
{
    text.push_str("<title id='t'>")
}

/// Ends its title.
#[tactic(auto, unfolding(crate::specs::Frame::title_end))]
pub fn end_title(text: &mut String) -> Result<(), AllocError>
    ensures { OnOk result (string_bytes text.new ≡ string_bytes text.old ++ title_end) }
{
    text.push_str("</title>\n")
}

/// Begins its heading.
#[tactic(auto, unfolding(crate::specs::Frame::heading_begin))]
pub fn begin_heading(text: &mut String) -> Result<(), AllocError>
    ensures { OnOk result (string_bytes text.new ≡ string_bytes text.old ++ heading_begin) }
{
    text.push_str("<text x='26' y='26' class='t'>")
}

#[tactic(auto, unfolding(crate::specs::Frame::about_left))]
fn push_about_left(text: &mut String) -> Result<(), AllocError>
    ensures { OnOk result (string_bytes text.new ≡ string_bytes text.old ++ about_left) }
{
    text.push_str(
        "<desc id='d'>Time goes downwards. Left: a lane for each core, a bar for each call. ",
    )
}

#[tactic(auto, unfolding(crate::specs::Frame::about_right))]
fn push_about_right(text: &mut String) -> Result<(), AllocError>
    ensures { OnOk result (string_bytes text.new ≡ string_bytes text.old ++ about_right) }
{
    text.push_str("Right: the calls in the order in which they take effect.</desc>\n")
}

/// Appends what it shows, in a sentence.
pub fn push_about(text: &mut String) -> Result<(), AllocError>
    ensures { OnOk result (string_bytes text.new ≡ string_bytes text.old ++ about) }
{
    push_about_left(text)?;
    push_about_right(text)
}

#[tactic(auto, unfolding(crate::specs::Frame::style_font))]
fn push_style_font(text: &mut String) -> Result<(), AllocError>
    ensures { OnOk result (string_bytes text.new ≡ string_bytes text.old ++ style_font) }
{
    text.push_str(
        "<style>text{font:12px ui-monospace,SFMono-Regular,Menlo,Consolas,'DejaVu Sans Mono',monospace;fill:#1b1f24;white-space:pre}\n",
    )
}

#[tactic(auto, unfolding(crate::specs::Frame::style_colours))]
fn push_style_colours(text: &mut String) -> Result<(), AllocError>
    ensures { OnOk result (string_bytes text.new ≡ string_bytes text.old ++ style_colours) }
{
    text.push_str(".paper{fill:#ffffff}.t{font-size:15px;font-weight:bold}.m{fill:#57606a}")
}

#[tactic(auto, unfolding(crate::specs::Frame::style_sizes))]
fn push_style_sizes(text: &mut String) -> Result<(), AllocError>
    ensures { OnOk result (string_bytes text.new ≡ string_bytes text.old ++ style_sizes) }
{
    text.push_str(".e{text-anchor:end}.c{text-anchor:middle}.s{font-size:10px}\n")
}

fn push_style_texts(text: &mut String) -> Result<(), AllocError>
    ensures { OnOk result (string_bytes text.new ≡ string_bytes text.old ++ style_texts) }
{
    push_style_font(text)?;
    push_style_colours(text)?;
    push_style_sizes(text)
}

#[tactic(auto, unfolding(crate::specs::Frame::style_shapes))]
fn push_style_shapes(text: &mut String) -> Result<(), AllocError>
    ensures { OnOk result (string_bytes text.new ≡ string_bytes text.old ++ style_shapes) }
{
    text.push_str(
        ".lane{stroke:#d8dee4}.lead{stroke:#d0d7de;stroke-dasharray:1 3}.bar{fill:#dde6ef;stroke:#8fa3b8}.run{fill:#5b7a9a}\n",
    )
}

#[tactic(auto, unfolding(crate::specs::Frame::style_discs))]
fn push_style_discs(text: &mut String) -> Result<(), AllocError>
    ensures { OnOk result (string_bytes text.new ≡ string_bytes text.old ++ style_discs) }
{
    text.push_str(
        ".ok{fill:#12805c}.no{fill:#ffffff;stroke:#57606a;stroke-width:2}.way{fill:#c2410c}",
    )
}

#[tactic(auto, unfolding(crate::specs::Frame::style_replies))]
fn push_style_replies(text: &mut String) -> Result<(), AllocError>
    ensures { OnOk result (string_bytes text.new ≡ string_bytes text.old ++ style_replies) }
{
    text.push_str(".okt{fill:#12805c}.not{fill:#57606a}.wayt{fill:#c2410c}\n")
}

fn push_style_bars(text: &mut String) -> Result<(), AllocError>
    ensures { OnOk result (string_bytes text.new ≡ string_bytes text.old ++ style_bars) }
{
    push_style_shapes(text)?;
    push_style_discs(text)?;
    push_style_replies(text)
}

#[tactic(auto, unfolding(crate::specs::Frame::style_flows))]
fn push_style_flows(text: &mut String) -> Result<(), AllocError>
    ensures { OnOk result (string_bytes text.new ≡ string_bytes text.old ++ style_flows) }
{
    text.push_str(".flow{fill:none;stroke:#2563c9;stroke-width:1}.flowh{fill:#2563c9}")
}

#[tactic(auto, unfolding(crate::specs::Frame::style_races))]
fn push_style_races(text: &mut String) -> Result<(), AllocError>
    ensures { OnOk result (string_bytes text.new ≡ string_bytes text.old ++ style_races) }
{
    text.push_str(".race{fill:none;stroke:#c2410c;stroke-width:2}.raceh{fill:#c2410c}\n")
}

#[tactic(auto, unfolding(crate::specs::Frame::style_still))]
fn push_style_still(text: &mut String) -> Result<(), AllocError>
    ensures { OnOk result (string_bytes text.new ≡ string_bytes text.old ++ style_still) }
{
    text.push_str(".lead,.run,.ok,.no,.way,.s{pointer-events:none}\n")
}

fn push_style_arrows(text: &mut String) -> Result<(), AllocError>
    ensures { OnOk result (string_bytes text.new ≡ string_bytes text.old ++ style_arrows) }
{
    push_style_flows(text)?;
    push_style_races(text)?;
    push_style_still(text)
}

#[tactic(auto, unfolding(crate::specs::Frame::dark_colours))]
fn push_dark_colours(text: &mut String) -> Result<(), AllocError>
    ensures { OnOk result (string_bytes text.new ≡ string_bytes text.old ++ dark_colours) }
{
    text.push_str(
        "@media (prefers-color-scheme:dark){text{fill:#e6edf3}.paper{fill:#0d1117}.m,.not{fill:#9aa4af}",
    )
}

#[tactic(auto, unfolding(crate::specs::Frame::dark_lanes))]
fn push_dark_lanes(text: &mut String) -> Result<(), AllocError>
    ensures { OnOk result (string_bytes text.new ≡ string_bytes text.old ++ dark_lanes) }
{
    text.push_str(".lane{stroke:#2b323b}.lead{stroke:#3a434e}\n")
}

#[tactic(auto, unfolding(crate::specs::Frame::dark_bars))]
fn push_dark_bars(text: &mut String) -> Result<(), AllocError>
    ensures { OnOk result (string_bytes text.new ≡ string_bytes text.old ++ dark_bars) }
{
    text.push_str(".bar{fill:#1f2b39;stroke:#52667d}.run{fill:#86a5c6}")
}

#[tactic(auto, unfolding(crate::specs::Frame::dark_marks))]
fn push_dark_marks(text: &mut String) -> Result<(), AllocError>
    ensures { OnOk result (string_bytes text.new ≡ string_bytes text.old ++ dark_marks) }
{
    text.push_str(
        ".ok,.okt{fill:#3fbf8f}.no{fill:#0d1117;stroke:#9aa4af}.way,.wayt,.raceh{fill:#ff8a4c}\n",
    )
}

#[tactic(auto, unfolding(crate::specs::Frame::dark_lines))]
fn push_dark_lines(text: &mut String) -> Result<(), AllocError>
    ensures { OnOk result (string_bytes text.new ≡ string_bytes text.old ++ dark_lines) }
{
    text.push_str(".flow{stroke:#6ea8ff}.flowh{fill:#6ea8ff}.race{stroke:#ff8a4c}}</style>\n")
}

fn push_style_dark(text: &mut String) -> Result<(), AllocError>
    ensures { OnOk result (string_bytes text.new ≡ string_bytes text.old ++ style_dark) }
{
    push_dark_colours(text)?;
    push_dark_lanes(text)?;
    push_dark_bars(text)?;
    push_dark_marks(text)?;
    push_dark_lines(text)
}

/// Appends the styles, light and dark.
pub fn push_styles(text: &mut String) -> Result<(), AllocError>
    ensures { OnOk result (string_bytes text.new ≡ string_bytes text.old ++ styles) }
{
    push_style_texts(text)?;
    push_style_bars(text)?;
    push_style_arrows(text)?;
    push_style_dark(text)
}

/// Appends what lies below all, of this size.
#[tactic(auto, unfolding(crate::specs::Frame::paper))]
pub fn push_paper(text: &mut String, width: u32, height: u32) -> Result<(), AllocError>
    ensures { OnOk result (string_bytes text.new ≡ string_bytes text.old ++ paper width height) }
{
    write!(
        text,
        "<rect width='{width}' height='{height}' class='paper'/>\n"
    )
}

#[tactic(auto, unfolding(crate::specs::Frame::key_bar_shape))]
fn push_key_bar_shape(text: &mut String) -> Result<(), AllocError>
    ensures { OnOk result (string_bytes text.new ≡ string_bytes text.old ++ key_bar_shape) }
{
    text.push_str(
        "<rect x='30' y='44' width='24' height='17' rx='3' class='bar'/><rect x='30' y='47' width='7' height='6' class='run'/>",
    )
}

#[tactic(auto, unfolding(crate::specs::Frame::key_bar_words))]
fn push_key_bar_words(text: &mut String) -> Result<(), AllocError>
    ensures { OnOk result (string_bytes text.new ≡ string_bytes text.old ++ key_bar_words) }
{
    text.push_str(
        "<text x='62' y='56' class='m'>a call; its left edge is filled where its core steps</text>\n",
    )
}

fn push_key_bar(text: &mut String) -> Result<(), AllocError>
    ensures { OnOk result (string_bytes text.new ≡ string_bytes text.old ++ key_bar) }
{
    push_key_bar_shape(text)?;
    push_key_bar_words(text)
}

#[tactic(auto, unfolding(crate::specs::Frame::key_line_shape))]
fn push_key_line_shape(text: &mut String) -> Result<(), AllocError>
    ensures { OnOk result (string_bytes text.new ≡ string_bytes text.old ++ key_line_shape) }
{
    text.push_str("<path d='M26 76H46' class='flow'/><path d='M54 76l-8 -4v8z' class='flowh'/>")
}

#[tactic(auto, unfolding(crate::specs::Frame::key_line_words))]
fn push_key_line_words(text: &mut String) -> Result<(), AllocError>
    ensures { OnOk result (string_bytes text.new ≡ string_bytes text.old ++ key_line_words) }
{
    text.push_str(
        "<text x='62' y='80' class='m'>meets what a call in progress at the same time has made</text>\n",
    )
}

fn push_key_line(text: &mut String) -> Result<(), AllocError>
    ensures { OnOk result (string_bytes text.new ≡ string_bytes text.old ++ key_line) }
{
    push_key_line_shape(text)?;
    push_key_line_words(text)
}

#[tactic(auto, unfolding(crate::specs::Frame::key_short_shape))]
fn push_key_short_shape(text: &mut String) -> Result<(), AllocError>
    ensures { OnOk result (string_bytes text.new ≡ string_bytes text.old ++ key_short_shape) }
{
    text.push_str("<path d='M38 100H46' class='flow'/><path d='M54 100l-8 -4v8z' class='flowh'/>")
}

#[tactic(auto, unfolding(crate::specs::Frame::key_short_words))]
fn push_key_short_words(text: &mut String) -> Result<(), AllocError>
    ensures { OnOk result (string_bytes text.new ≡ string_bytes text.old ++ key_short_words) }
{
    text.push_str("<text x='62' y='104' class='m'>finds what an earlier call has left</text>\n")
}

fn push_key_short(text: &mut String) -> Result<(), AllocError>
    ensures { OnOk result (string_bytes text.new ≡ string_bytes text.old ++ key_short) }
{
    push_key_short_shape(text)?;
    push_key_short_words(text)
}

#[tactic(auto, unfolding(crate::specs::Frame::key_done))]
fn push_key_done(text: &mut String) -> Result<(), AllocError>
    ensures { OnOk result (string_bytes text.new ≡ string_bytes text.old ++ key_done) }
{
    text.push_str(
        "<circle cx='502' cy='52' r='5' class='ok'/><text x='514' y='56' class='m'>carried out</text>\n",
    )
}

#[tactic(auto, unfolding(crate::specs::Frame::key_refused))]
fn push_key_refused(text: &mut String) -> Result<(), AllocError>
    ensures { OnOk result (string_bytes text.new ≡ string_bytes text.old ++ key_refused) }
{
    text.push_str(
        "<circle cx='614' cy='52' r='5' class='no'/><text x='626' y='56' class='m'>refused</text>\n",
    )
}

#[tactic(auto, unfolding(crate::specs::Frame::key_way))]
fn push_key_way(text: &mut String) -> Result<(), AllocError>
    ensures { OnOk result (string_bytes text.new ≡ string_bytes text.old ++ key_way) }
{
    text.push_str(
        "<path d='M502 70l6 6l-6 6l-6 -6z' class='way'/><text x='514' y='80' class='m'>refused: another is in the way</text>\n",
    )
}

fn push_key_marks(text: &mut String) -> Result<(), AllocError>
    ensures { OnOk result (string_bytes text.new ≡ string_bytes text.old ++ key_marks) }
{
    push_key_done(text)?;
    push_key_refused(text)?;
    push_key_way(text)
}

#[tactic(auto, unfolding(crate::specs::Frame::key_race_shape))]
fn push_key_race_shape(text: &mut String) -> Result<(), AllocError>
    ensures { OnOk result (string_bytes text.new ≡ string_bytes text.old ++ key_race_shape) }
{
    text.push_str(
        "<path d='M482 100H498' class='race'/><path d='M506 100l-8 -4v8z' class='raceh'/>",
    )
}

#[tactic(auto, unfolding(crate::specs::Frame::key_race_words))]
fn push_key_race_words(text: &mut String) -> Result<(), AllocError>
    ensures { OnOk result (string_bytes text.new ≡ string_bytes text.old ++ key_race_words) }
{
    text.push_str("<text x='514' y='104' class='m'>what is in the way</text>\n")
}

fn push_key_race(text: &mut String) -> Result<(), AllocError>
    ensures { OnOk result (string_bytes text.new ≡ string_bytes text.old ++ key_race) }
{
    push_key_race_shape(text)?;
    push_key_race_words(text)
}

/// Appends the key.
pub fn push_key(text: &mut String) -> Result<(), AllocError>
    ensures { OnOk result (string_bytes text.new ≡ string_bytes text.old ++ key) }
{
    push_key_bar(text)?;
    push_key_line(text)?;
    push_key_short(text)?;
    push_key_marks(text)?;
    push_key_race(text)
}

/// Appends the heads of the two columns of texts, beside so many cores.
#[tactic(auto, unfolding(crate::specs::Frame::heads))]
pub fn push_heads(text: &mut String, cores: u8) -> Result<(), AllocError>
    ensures { OnOk result (string_bytes text.new ≡ string_bytes text.old ++ heads cores) }
{
    let x = right_x(cores) + 30;
    write!(
        text,
        "<text x='58' y='138' class='m s e'>step</text>\n<text x='{x}' y='138' class='m'>in the order in which calls take effect</text>\n"
    )
}

/// Appends a core's lane, down to the last step, which has this height.
#[tactic(auto, unfolding(crate::specs::Frame::lane))]
pub fn push_lane(text: &mut String, core: u8, y: u16) -> Result<(), AllocError>
    ensures { OnOk result (string_bytes text.new ≡ string_bytes text.old ++ lane core y) }
{
    let x = lane_x(core) + 19;
    let bottom = u32::from(y) + 14;
    write!(text, "<path d='M{x} 142V{bottom}' class='lane'/>\n")
}

#[tactic(auto, unfolding(crate::specs::Frame::core_name))]
fn push_core_name(text: &mut String, core: u8, x: u32, y: u32) -> Result<(), AllocError>
    ensures { OnOk result (string_bytes text.new ≡ string_bytes text.old ++ core_name core x y) }
{
    write!(
        text,
        "<text x='{x}' y='{y}' class='c m'>core {core}</text>\n"
    )
}

/// Appends a core's name, above and below its lane.
pub fn push_core_names(text: &mut String, core: u8, y: u16) -> Result<(), AllocError>
    ensures { OnOk result (string_bytes text.new ≡ string_bytes text.old ++ core_names core y) }
{
    let x = lane_x(core) + 19;
    let below = u32::from(y) + 30;
    push_core_name(text, core, x, 138)?;
    push_core_name(text, core, x, below)
}
