//! The texts of cells.
ghost use Rattle.std.specs.Prelude.{◌≡◌, IfOk, string_bytes};

use std::alloc::{AllocError, Global};
use std::fmt;
use std::marker::Model;
use std::sync::Arc;

/// The text of a cell. A clone is the same text and shares it. Contracts see its octets.
#[derive(Drop)]
pub struct CellText {
    text: Arc<String>,
}

impl Model for CellText {
    ghost use Rattle.std.specs.Prelude.{ℕ, List, string_bytes};
    ghost use Rattle.std.specs.Arc.{arc_value};

    ghost Value = { List ℕ };

    ghost view = { λ t. string_bytes (arc_value t.text) };
}

impl CellText {
    /// The text is moved, and not copied. The only error is want of memory.
    pub fn new(alloc: Global, text: String) -> Result<CellText, AllocError>
        ensures { IfOk result (λ t. t ≡ string_bytes text) }
    {
        let text = Arc::new(alloc, text)?;
        Ok(CellText { text })
    }

    /// The text.
    pub fn as_str(&self) -> &str
        ensures { result.now ≡ self.now }
    {
        (*self.text).as_str()
    }
}

impl Clone for CellText {
    ghost use Rattle.std.specs.Prelude.{◌≡◌};

    ghost is_clone = { λ x y. y ≡ x };

    fn clone(&self) -> Result<CellText, AllocError> {
        let text = Arc::try_clone(&self.text)?;
        Ok(CellText { text })
    }
}

/// As the text alone is written.
impl fmt::Debug for CellText {
    fn fmt<W: fmt::Write>(&self, f: &mut fmt::Formatter<W>) -> fmt::Result {
        let text = self.as_str();
        write!(f, "{text:?}")
    }
}
