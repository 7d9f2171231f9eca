//! Rows are added to groups.
use crate::filtered::TakesRows;
use flow_rows::Row;
use flow_uniq::Groups;
use label_lookup::StretchIndex;
use std::alloc::AllocError;

impl TakesRows for Groups {
    ghost use Rattle.flow_files.specs.Reports.{HasGroups};

    ghost has_rows = { HasGroups };

    #[inline(always)]
    fn take_row(
        &mut self,
        row: &Row<'_>,
        labels: Option<&StretchIndex<'_>>,
    ) -> Result<(), AllocError> {
        self.add(row, labels)
    }
}
