//! The text of a page.

ghost use Rattle.std.specs.Prelude.{◌≡◌, ◌+◌, ◌*◌, ◌<◌, ◌≤◌, ◌++◌, max, nat_lt, if◌then◌else◌, ◌||◌, OnOk, IfOk, codes, decimal};
ghost use Rattle.std.specs.Prelude.{string_bytes};
ghost use Rattle.page_touches.specs.page_layers.specs.Layers.{foot_y};
ghost use Rattle.page_drawing.specs.Pages.{Page};
ghost use Rattle.page_drawing.specs.Pictures.{counted, number_words, steps_words, page_words, cores_finished, finished, cut_here};
ghost use Rattle.page_drawing.specs.Pictures.{cut_line, cut_words, width_of, height_of};
ghost use Rattle.page_drawing.specs.Pictures.{picture_title, picture_heading, lower_layers, upper_layers, layers_text, page_text, none_words, none_text, text_of, picture_head};

use crate::page::{TracePage, end_run, next_step};
use page_touches::page_layers::{Lane, Sheet};
use picture_shapes::{
    begin_heading, begin_picture, begin_sentence, begin_title, end_picture, end_text, end_title,
    push_about, push_heads, push_key, push_paper, push_styles,
};
use std::alloc::{AllocError, Global};

// Appends so many of a thing.
fn push_counted(text: &mut String, n: u16, thing: &'static str) -> Result<(), AllocError>
    ensures { OnOk result (string_bytes text.new ≡ string_bytes text.old ++ counted n thing.now) }
{
    write!(text, "{n}")?;
    text.push_str(" ")?;
    text.push_str(thing)?;
    if n == 1 {
        return Ok(());
    }
    text.push_str("s")
}

fn push_page_number(text: &mut String, shows: bool, page: u32) -> Result<(), AllocError>
    ensures { OnOk result (string_bytes text.new ≡ string_bytes text.old ++ number_words shows page) }
{
    if !shows {
        return Ok(());
    }
    write!(text, "Page {page}: ")
}

#[tactic(auto, unfolding(crate::specs::Pictures::steps_words))]
fn push_steps(text: &mut String, first: u64, last: u64) -> Result<(), AllocError>
    ensures { OnOk result (string_bytes text.new ≡ string_bytes text.old ++ steps_words first last) }
{
    write!(text, ", steps {first} to {last}")
}

#[tactic(auto, unfolding(crate::specs::Pictures::cut_here))]
fn push_cut_here(text: &mut String) -> Result<(), AllocError>
    ensures { OnOk result (string_bytes text.new ≡ string_bytes text.old ++ cut_here) }
{
    text.push_str(
        "Cut here: a page has at most 60 calls and 2000 steps. The next begins with step ",
    )
}

// Appends the sentence below a page that is cut.
fn push_cut(text: &mut String, y: u32, next: u64) -> Result<(), AllocError>
    requires { y < 100000 }
    ensures { OnOk result (string_bytes text.new ≡ string_bytes text.old ++ cut_line y next) }
{
    begin_sentence(text, y)?;
    push_cut_here(text)?;
    write!(text, "{next}")?;
    text.push_str(".")?;
    end_text(text)
}

#[tactic(auto, unfolding(crate::specs::Pictures::none_words))]
fn push_none(text: &mut String, wanted: u32, page: u32) -> Result<(), AllocError>
    ensures { OnOk result (string_bytes text.new ≡ string_bytes text.old ++ none_words wanted page) }
{
    write!(text, "There is no page {wanted}: the last is page {page}.")
}

// Appends the name of a picture as its title, and as its heading.
fn push_title(text: &mut String, name: &String) -> Result<(), AllocError>
    ensures { OnOk result (string_bytes text.new ≡ string_bytes text.old ++ picture_title (string_bytes name.now)) }
{
    begin_title(text)?;
    text.push_str(name)?;
    end_title(text)
}

fn push_heading(text: &mut String, name: &String) -> Result<(), AllocError>
    ensures { OnOk result (string_bytes text.new ≡ string_bytes text.old ++ picture_heading (string_bytes name.now)) }
{
    begin_heading(text)?;
    text.push_str(name)?;
    end_text(text)
}

// Begins a picture of this size, with this name.
fn push_head(text: &mut String, width: u32, height: u32, name: &String) -> Result<(), AllocError>
    ensures { OnOk result (string_bytes text.new ≡ string_bytes text.old ++ picture_head width height (string_bytes name.now)) }
{
    begin_picture(text, width, height)?;
    push_title(text, name)?;
    push_about(text)?;
    push_styles(text)?;
    push_paper(text, width, height)?;
    push_heading(text, name)
}

fn push_lower(text: &mut String, sheet: &Sheet) -> Result<(), AllocError>
    ensures { OnOk result (string_bytes text.new ≡ string_bytes text.old ++ lower_layers sheet.now) }
{
    text.push_str(&sheet.grounds)?;
    text.push_str(&sheet.leads)?;
    text.push_str(&sheet.arrows)?;
    text.push_str(&sheet.bars)?;
    text.push_str(&sheet.edges)
}

fn push_upper(text: &mut String, sheet: &Sheet) -> Result<(), AllocError>
    ensures { OnOk result (string_bytes text.new ≡ string_bytes text.old ++ upper_layers sheet.now) }
{
    text.push_str(&sheet.teeth)?;
    text.push_str(&sheet.marks)?;
    text.push_str(&sheet.texts)?;
    text.push_str(&sheet.names)
}

fn push_layers(text: &mut String, sheet: &Sheet) -> Result<(), AllocError>
    ensures { OnOk result (string_bytes text.new ≡ string_bytes text.old ++ layers_text sheet.now) }
{
    push_lower(text, sheet)?;
    push_upper(text, sheet)
}

fn width_of(cores: u8, letters: u16) -> u32
    ensures { result ≡ width_of cores letters }
{
    let width = 72 + 72 * u32::from(cores) + (46 + 8 * u32::from(letters));
    if width < 760 { 760 } else { width }
}

fn height_of(y: u16, feet: u8, is_cut: bool) -> u32
    ensures { result ≡ height_of y feet is_cut }
{
    let lines = if is_cut {
        u32::from(feet) + 1
    } else {
        u32::from(feet)
    };
    u32::from(y) + (46 + 17 * lines)
}

fn foot_y(y: u16, feet: u8) -> u32
    ensures value { result ≡ foot_y y feet }
    ensures most { result < 100000 }
{
    u32::from(y) + 53 + 17 * u32::from(feet)
}

// Finishes the lanes of all cores.
#[tactic(auto, using(crate::proofs::Feet::feet_of_core))]
fn finish_cores(
    sheet: &mut Sheet,
    cores: u8,
    lanes: &[Lane; 8],
    first: u64,
    y: u16,
) -> Result<(), AllocError>
    requires few { cores ≤ 8 }
    requires none { sheet.old.feet ≡ 0 }
    ensures { OnOk result (sheet.new ≡ cores_finished cores lanes.now first y sheet.old cores) }
{
    'cores: for core in 0..cores {
        let lane = lanes[usize::from(core)];
        sheet.finish_core(cores, core, &lane, first, y)?;
    }
    Ok(())
}

impl TracePage {
    fn push_name(&self, text: &mut String) -> Result<(), AllocError>
        ensures { OnOk result (string_bytes text.new ≡ string_bytes text.old ++ page_words self.now) }
    {
        push_page_number(text, self.page > 1 || self.is_cut, self.page)?;
        push_counted(text, u16::from(self.cores), "core")?;
        text.push_str(", ")?;
        push_counted(text, self.rows.calls, "call")?;
        push_steps(
            text,
            self.first + 1,
            self.first + u64::from(self.rows.count),
        )
    }

    fn push_cut(&self, text: &mut String) -> Result<(), AllocError>
        ensures { OnOk result (string_bytes text.new ≡ string_bytes text.old
            ++ cut_words self.now.is_cut self.now.rows.y self.now.layers.feet (self.now.first + (self.now.rows.count + 1))) }
    {
        if !self.is_cut {
            return Ok(());
        }
        push_cut(
            text,
            foot_y(self.rows.y, self.sheet.feet),
            next_step(self.page, self.first, self.rows.count),
        )
    }

    // Finishes the page.
    fn finish(self) -> Result<TracePage, AllocError>
        ensures { IfOk result (λ page. page ≡ record self { layers = finished self }) }
    {
        let TracePage {
            cores,
            wanted,
            page,
            is_cut,
            first,
            decisions,
            lanes,
            words,
            frames,
            rows,
            run,
            sheet,
        } = self;
        let mut sheet = sheet;
        end_run(&mut sheet, &run, rows.y)?;
        sheet.feet = 0;
        finish_cores(&mut sheet, cores, &lanes, first, rows.y)?;
        Ok(TracePage {
            cores,
            wanted,
            page,
            is_cut,
            first,
            decisions,
            lanes,
            words,
            frames,
            rows,
            run,
            sheet,
        })
    }

    // Appends the page, whose lanes are finished.
    fn push_page(&self, alloc: Global, text: &mut String) -> Result<(), AllocError>
        ensures { OnOk result (string_bytes text.new ≡ string_bytes text.old ++ page_text self.now self.now.layers) }
    {
        let mut name = String::new(alloc);
        self.push_name(&mut name)?;
        push_head(
            text,
            width_of(self.cores, self.sheet.letters),
            height_of(self.rows.y, self.sheet.feet, self.is_cut),
            &name,
        )?;
        push_key(text)?;
        push_heads(text, self.cores)?;
        push_layers(text, &self.sheet)?;
        self.push_cut(text)?;
        end_picture(text)
    }

    fn push_no_page(&self, alloc: Global, text: &mut String) -> Result<(), AllocError>
        ensures { OnOk result (string_bytes text.new ≡ string_bytes text.old ++ none_text self.now.wanted self.now.page) }
    {
        let mut name = String::new(alloc);
        push_none(&mut name, self.wanted, self.page)?;
        push_head(text, 760, 44, &name)?;
        end_picture(text)
    }

    /// The picture: that of the page that is asked for, or a sentence where there is no such page. It fails only where memory runs out.
    pub fn into_text(self, alloc: Global) -> Result<String, AllocError>
        ensures { IfOk result (λ text. string_bytes text ≡ text_of self) }
    {
        let mut text = String::new(alloc);
        if self.page != self.wanted {
            self.push_no_page(alloc, &mut text)?;
            return Ok(text);
        }
        let page = self.finish()?;
        page.push_page(alloc, &mut text)?;
        Ok(text)
    }
}
