//! Laws of the definitions, each the contract of a function that does nothing.

ghost use Rattle.std.specs.Prelude.{◌≡◌, ◌≤◌, ℕ, true, false, List, [], ◌∷◌, ◌++◌, ◌<◌, length, slice_index_or};
ghost use Rattle.std.specs.List.{All};
ghost use Rattle.link_base.specs.Bytes.{bytes_at};
ghost use Rattle.link_base.specs.PeFormat.{NUMBEROF_DIRECTORY_ENTRIES};
ghost use Rattle.link_base.specs.Limits.{SECTION_LIMIT, IMAGE_LIMIT};
ghost use Rattle.section_group.specs.declared.piece.Piece.{Piece};
ghost use Rattle.section_group.specs.declared.piece.OutSection.{OutSection};
ghost use Rattle.address_layout.specs.declared.layout.Layout.{Layout};
ghost use Rattle.address_layout.specs.Places.{section_count, row_at};
ghost use Rattle.address_layout.specs.Layout.{IsAlignment, StandOnce, HoldsArrangement, IsRewritten};
ghost use Rattle.address_layout.specs.Growth.{CanGrow, Appends};
ghost use Rattle.base_reloc.specs.declared.field.BaseField.{BaseField};
ghost use Rattle.image_writer.specs.declared.headers.Headers.{Headers};
ghost use Rattle.image_writer.specs.ExpectedImage.{ImagePlan, MeansPlan, permits, image_file};
ghost use Rattle.image_writer.specs.LoadablePlan.{IsLoadable};
ghost use Rattle.image_writer.specs.WrittenImage.{layout_plan, HaveRoom, IsLaidOut};
ghost use Rattle.image_writer.specs.MovedContents.{HaveOneLength, Stay, Move};
ghost use Rattle.image_writer.specs.PieceInFile.{piece_at, piece_place, patched, DiffersAt};

/// The file of a loadable plan loads as the plan says: at each permitted base and at no other, with the fields of its base
/// relocations raised, and with no byte besides.
pub fn file_loads_as_planned()
    ensures { (plan : ImagePlan) → IsLoadable plan → MeansPlan plan (image_file plan) }
{}

/// Two files that mean one plan are equal.
pub fn one_file_means_a_plan()
    ensures { (plan : ImagePlan) (first second : List ℕ) → All (λ byte. byte < 256) first → All (λ byte. byte < 256) second
        → MeansPlan plan first → MeansPlan plan second → first ≡ second }
{}

/// What `place` gives can be written, also with the section of base relocations that `append_reloc` adds, and after RVAs of
/// pieces that stand in no section were written.
pub fn layouts_can_be_written()
    ensures placed { (pieces : List Piece) (sections : List OutSection) (layout : Layout)
        → HoldsArrangement pieces sections false layout → StandOnce pieces sections → section_count sections false ≤ SECTION_LIMIT → CanGrow layout
        → IsLaidOut pieces sections layout }
    ensures appended { (pieces : List Piece) (piece : Piece) (sections : List OutSection) (section : OutSection) (old new : Layout) (len : ℕ)
        → HoldsArrangement pieces sections true old → All (λ piece. IsAlignment piece.align) pieces → StandOnce pieces sections
        → section_count sections true ≤ SECTION_LIMIT → Appends old new len → new.image ≤ IMAGE_LIMIT
        → section.pieces.items ≡ length pieces ∷ [] → piece.size ≡ len
        → IsLaidOut (pieces ++ piece ∷ []) (sections ++ section ∷ []) new }
    ensures rewritten { (pieces : List Piece) (sections : List OutSection) (old new : Layout)
        → IsLaidOut pieces sections old → IsRewritten sections old new → IsLaidOut pieces sections new }
{}

/// The file of what is laid out loads as planned: where the contents are the same at each permitted base, and where only
/// fields differ that the table of base relocations lists, each raised by the difference of the bases.
pub fn written_file_loads_as_planned()
    ensures stays { (headers : Headers) (pieces : List Piece) (sections : List OutSection) (layout : Layout) (contents : ℕ → List (List ℕ))
        → IsLaidOut pieces sections layout → HaveRoom pieces sections (contents headers.base) → HaveOneLength contents
        → length headers.directories ≡ NUMBEROF_DIRECTORY_ENTRIES → permits (layout_plan headers sections layout contents) headers.base ≡ true
        → Stay headers sections layout contents
        → MeansPlan (layout_plan headers sections layout contents) (image_file (layout_plan headers sections layout contents)) }
    ensures moves { (headers : Headers) (pieces : List Piece) (sections : List OutSection) (layout : Layout) (contents : ℕ → List (List ℕ)) (fields : List BaseField)
        → IsLaidOut pieces sections layout → ((base : ℕ) → HaveRoom pieces sections (contents base)) → HaveOneLength contents
        → length headers.directories ≡ NUMBEROF_DIRECTORY_ENTRIES → permits (layout_plan headers sections layout contents) headers.base ≡ true
        → Move headers sections layout contents fields
        → MeansPlan (layout_plan headers sections layout contents) (image_file (layout_plan headers sections layout contents)) }
{}

/// In the file of what is laid out the bytes of piece `j` of section `i` stand at its place, and other bytes of the same
/// length there give the file of the plan with these bytes.
pub fn pieces_stand_in_the_file()
    ensures stands { (headers : Headers) (pieces : List Piece) (sections : List OutSection) (layout : Layout) (contents : ℕ → List (List ℕ)) (i j : ℕ)
        → IsLaidOut pieces sections layout → HaveRoom pieces sections (contents headers.base) → length headers.directories ≡ NUMBEROF_DIRECTORY_ENTRIES
        → i < length sections → j < length (row_at sections i).1
        → let bytes = slice_index_or (contents headers.base) (piece_at sections i j) [] in
        bytes_at (image_file (layout_plan headers sections layout contents)) (piece_place layout i (piece_at sections i j)) (length bytes) ≡ bytes }
    ensures replaced { (headers : Headers) (pieces : List Piece) (sections : List OutSection) (layout : Layout) (old new : ℕ → List (List ℕ)) (i j : ℕ)
        → IsLaidOut pieces sections layout → HaveRoom pieces sections (old headers.base) → length headers.directories ≡ NUMBEROF_DIRECTORY_ENTRIES
        → i < length sections → j < length (row_at sections i).1 → DiffersAt (piece_at sections i j) (old headers.base) (new headers.base)
        → patched (piece_place layout i (piece_at sections i j)) (slice_index_or (new headers.base) (piece_at sections i j) []) (image_file (layout_plan headers sections layout old))
        ≡ image_file (layout_plan headers sections layout new) }
{}
