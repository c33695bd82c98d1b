//! What follows from the definitions alone.

ghost use Rattle.std.specs.Prelude.{◌≡◌, List};
ghost use Rattle.section_group.specs.declared.piece.OutSection.{OutSection};
ghost use Rattle.section_group.specs.SectionOrder.{Input};
ghost use Rattle.section_group.specs.Placement.{IsGrouping};
ghost use Rattle.section_group.specs.Uniqueness.{rows_of};

/// One input has one grouping: the sections, their flags and their pieces are the same, in the same order. It does nothing.
pub fn one_grouping()
    ensures { (input : Input) (sections others : List OutSection) → IsGrouping input sections → IsGrouping input others
        → rows_of sections ≡ rows_of others }
{}
