ghost use Rattle.std.specs.Prelude.{◌≡◌};
ghost use Rattle.prefix_keys.specs.declared.version.Version.TheVariants.{V4};
ghost use Rattle.pmap_model.specs.Packed.{narrow_statement, wide_statement};

use crate::packed::{NarrowStatement, WideStatement};
use crate::packed_list::{Packable, PackedList};
use crate::statement::Statement;
use prefix_keys::{Addr, Span, Version};

/// The mappings of a prefix map, in the order of the text.
pub type Statements = PackedList<Statement>;

impl Packable for Statement {
    type Narrow = NarrowStatement;

    type Wide = WideStatement;

    ghost fits_narrow = { λ statement. statement.span.low.version ≡ V4 };

    ghost of_narrow = { narrow_statement };

    ghost of_wide = { wide_statement };

    #[inline(always)]
    fn is_narrow(&self) -> bool {
        self.span.low.version == Version::V4
    }

    #[inline(always)]
    fn narrow(self) -> NarrowStatement {
        NarrowStatement {
            low: self.span.low.value as u32,
            high: self.span.high.value as u32,
            label: self.label,
        }
    }

    fn wide(self) -> WideStatement {
        WideStatement {
            low: self.span.low.value,
            high: self.span.high.value,
            label: self.label,
            version: self.span.low.version,
        }
    }

    fn from_narrow(packed: NarrowStatement) -> Statement {
        let low = Addr {
            version: Version::V4,
            value: u128::from(packed.low),
        };
        let high = Addr {
            version: Version::V4,
            value: u128::from(packed.high),
        };
        Statement {
            span: Span { low, high },
            label: packed.label,
        }
    }

    fn from_wide(packed: WideStatement) -> Statement {
        let low = Addr {
            version: packed.version,
            value: packed.low,
        };
        let high = Addr {
            version: packed.version,
            value: packed.high,
        };
        Statement {
            span: Span { low, high },
            label: packed.label,
        }
    }
}
