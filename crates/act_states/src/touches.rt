//! Where the touching of a page stands between two steps.

use spk_nums::{FrameNo, PageNo, Translation};
use stage_look::Look;

/// A page that is touched, between two steps.
#[derive(Clone, Copy, PartialEq, Eq, Debug)]
pub struct Touching {
    /// The look-up of its entry.
    pub look: Look,
    /// The root of the core's pages.
    pub pages: FrameNo,
    /// The page.
    pub page: PageNo,
    /// The frames of the machine.
    pub frames: u16,
    /// The translation of the page that the core has cached.
    pub cached: Option<Translation>,
}
