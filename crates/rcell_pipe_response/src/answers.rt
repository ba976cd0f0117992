//! Writes the frames for the questions about the maps that exist at the end of a script, in order.

ghost use Rattle.std.specs.Prelude.{◌≡◌, ◌<◌, ◌^◌, All, false, length, None, OnOk, OnErr, IfErr, IfOk, IfSome};
ghost use Rattle.std.specs.Option.{is_none, option_map};
ghost use Rattle.cell_core_values.specs.Name.{place_of_name};
ghost use Rattle.cell_core_devices.specs.Blocks.{IsTextAppendedThroughBlock};
ghost use Rattle.cell_clumps.specs.declared.clump.Joining.{Joining};
ghost use Rattle.cell_clumps.specs.Clumps.{IsClumpMapOf};
ghost use Rattle.cell_join_tiles.specs.Values.{value_of_tile_border};
ghost use Rattle.rcell_tile.specs.TileRuns.{inner_shelf};
ghost use Rattle.rcell_pipe_frames.specs.FrameBytes.{frames_bytes};
ghost use Rattle.rcell_pipe_request.specs.Questions.{question_as_value, questions_as_values};
ghost use Rattle.rcell_pipe_response.specs.QuestionFrames.{AreMainZonesOfPatchesIfNamed, AreMeasuresWithHalo, ArePatchMeasuresIfWanted, IsBorderOfMapIfWanted, IsShelfMapWithName, question_has_unknown_map, question_has_unknown_zone_map, border_frame_if_wanted, first_col_in_full_map, first_row_in_full_map, patch_numbers_frame_if_wanted, patches_frame_if_wanted, position_of_tile};
ghost use Rattle.rcell_pipe_response.specs.parts.Answering.{AreQuestionFramesAppended, AreAllQuestionFramesAppended, StopsAfterFirstQuestionFrames, patch_measures_as_value};

use crate::frame_execution::maps_without_halo;
use cell_clumps::clump::{Joining, clump_with};
use cell_core::block::OutputBlock;
use cell_core::map::CellMap;
use cell_core::memory::Memory;
use cell_core::name::Name;
use cell_core::region::Region;
use cell_core::shelf::Shelf;
use cell_core::sink::Sink;
use cell_join_tiles::border::TileBorder;
use cell_join_tiles::bordering::border_of_tile;
use cell_patches::measuring::{patch_measures, patch_measures_in_tile};
use cell_patches::patch::Patch;
use cell_patches::tile_position::TilePosition;
use cell_patches::zones::zones_of_patches;
use rcell_pipe_frames::border_frame::{FullMapPosition, push_border_frame};
use rcell_pipe_frames::numbers_frame::push_patch_numbers_frame;
use rcell_pipe_frames::patches_frame::push_patches_frame;
use rcell_pipe_request::question::Question;
use rcell_tile::run_shelves::RunShelves;
use rcell_tile::tile_place::TilePlace;
use std::alloc::Global;

/// Why writing the frames of questions stopped.
#[derive(Clone, Copy, Debug)]
pub(crate) enum AnswerWritingStop {
    /// Memory ran out.
    Memory,
    /// A write failed.
    Write,
}

// Returns the shelf's map with this name.
fn map_named<'a>(shelf: &'a Shelf, name: &[u8]) -> &'a CellMap
    requires { is_none (place_of_name name.now shelf.now.names) ≡ false }
    ensures named { IsShelfMapWithName shelf.now name.now result.now }
    ensures region { result.now.region ≡ shelf.now.region }
{
    match shelf.find(name) {
        Some(place) => shelf.map(place),
        None => unreachable!(),
    }
}

// Returns the main zone of each patch, if a map of zones is named.
fn main_zone_of_each_patch(
    alloc: Global,
    shelf: &Shelf,
    name: &Option<Name>,
    numbers: &CellMap,
    patches: usize,
) -> Result<Option<Vec<Option<i32>>>, Memory>
    requires known { question_has_unknown_zone_map shelf.now.names name.now ≡ false }
    requires region { numbers.now.region ≡ shelf.now.region }
    ensures zones { IfOk result (λ zones. AreMainZonesOfPatchesIfNamed shelf.now numbers.now patches
        name.now
        (option_map (λ z. z.items) zones)) }
    ensures long { IfOk result (λ zones. IfSome zones (λ z. length z.items ≡ patches)) }
{
    match name {
        Some(name) => {
            let zones = zones_of_patches(alloc, numbers, map_named(shelf, name.bytes()), patches)?;
            Ok(Some(zones))
        }
        None => Ok(None),
    }
}

// Writes the frame of the patches' numbers if they are wanted. Allocates all memory before it writes the first byte.
fn push_patch_numbers_if_wanted<W: Sink>(
    alloc: Global,
    with_numbers: bool,
    place: u64,
    numbers: &CellMap,
    block: &mut OutputBlock,
    out: &mut W,
) -> Result<(), Memory>
    ensures ok { OnOk result (IsTextAppendedThroughBlock W.taken W.faults out.old block.old
        (frames_bytes (patch_numbers_frame_if_wanted with_numbers place numbers.now)) out.new
        block.new) }
    ensures err { OnErr result ((out.new ≡ out.old) × (block.new ≡ block.old)) }
{
    if with_numbers {
        return push_patch_numbers_frame(alloc, out, block, place, numbers);
    }
    Ok(())
}

// The measures of a map's patches, and the patches' zones if a map of zones is named.
#[derive(Drop)]
pub(crate) struct PatchMeasures {
    pub(crate) patches: Vec<Patch>,
    pub(crate) zones: Option<Vec<Option<i32>>>,
}

// Returns the border of a map with these patch numbers, if it is wanted.
fn border_if_wanted(
    alloc: Global,
    wanted: bool,
    map: &CellMap,
    numbers: &CellMap,
) -> Result<Option<TileBorder>, Memory>
    requires { numbers.now.region ≡ map.now.region }
    ensures border { IfOk result (λ border. (joining : Joining)
        → IsClumpMapOf joining map.now numbers.now
        → IsBorderOfMapIfWanted wanted joining map.now numbers.now
        (option_map value_of_tile_border border)) }
    ensures few { IfOk result (λ border. IfSome border (λ border. All (λ count. count < 2 ^ 32)
        border.begun.items)) }
{
    if !wanted {
        return Ok(None);
    }
    let border = border_of_tile(alloc, map, numbers)?;
    Ok(Some(border))
}

// Returns the position of a tile in its maps and in the full map.
fn position_of_tile(place: &TilePlace) -> TilePosition
    ensures { result ≡ position_of_tile place.now }
{
    TilePosition {
        top: place.rows_above(),
        left: place.columns_left(),
        first_row: place.tile_top(),
        first_col: place.tile_left(),
    }
}

// Returns the measures in the full map of the patches of the map that a question names. In a tile, the map with the halo
// has the cells around the patches.
fn patch_measures_in_full_map(
    alloc: Global,
    shelves: &RunShelves,
    question: &Question,
    map: &CellMap,
    numbers: &CellMap,
) -> Result<Vec<Patch>, Memory>
    requires known { is_none (place_of_name question.now.map.items shelves.now.outer.names)
        ≡ false }
    requires map { IsShelfMapWithName (inner_shelf shelves.now) question.now.map.items map.now }
    requires clumping { IsClumpMapOf question.now.joining map.now numbers.now }
    ensures { IfOk result (λ patches. AreMeasuresWithHalo shelves.now.place shelves.now.outer
        question.now.map.items map.now numbers.now question.now.depth patches.items) }
{
    let joining = question.joining;
    let depth = question.depth;
    match shelves.place() {
        None => patch_measures(alloc, map, numbers, joining, depth),
        Some(place) => {
            let outer = map_named(shelves.outer(), &question.map);
            let position = position_of_tile(&place);
            let patches = patch_measures_in_tile(alloc, outer, position, numbers, joining, depth)?;
            Ok(patches)
        }
    }
}

// Returns the measures and zones of a map's patches, if they are wanted.
fn patch_measures_if_wanted(
    alloc: Global,
    shelves: &RunShelves,
    question: &Question,
    map: &CellMap,
    numbers: &CellMap,
) -> Result<Option<PatchMeasures>, Memory>
    requires known { question_has_unknown_map shelves.now.outer.names
        (question_as_value question.now) ≡ false }
    requires map { IsShelfMapWithName (inner_shelf shelves.now) question.now.map.items map.now }
    requires region { map.now.region ≡ (inner_shelf shelves.now).region }
    requires clumping { IsClumpMapOf question.now.joining map.now numbers.now }
    ensures measures { IfOk result (λ measures. ArePatchMeasuresIfWanted
        question.now.wanted.patches shelves.now (question_as_value question.now) map.now numbers.now
        (option_map patch_measures_as_value measures)) }
    ensures long { IfOk result (λ measures. IfSome measures (λ measures. IfSome measures.zones
        (λ zones. length zones.items ≡ length measures.patches.items))) }
{
    if !question.wanted.patches {
        return Ok(None);
    }
    let patches = patch_measures_in_full_map(alloc, shelves, question, map, numbers)?;
    let shelf = maps_without_halo(shelves);
    let zones = main_zone_of_each_patch(alloc, shelf, &question.zones, numbers, patches.len())?;
    Ok(Some(PatchMeasures { patches, zones }))
}

// Returns the position in the full map of maps without halo.
fn position_in_full_map(shelves: &RunShelves) -> FullMapPosition
    ensures row { result.first_row ≡ first_row_in_full_map shelves.now.place }
    ensures col { result.first_col ≡ first_col_in_full_map shelves.now.place }
{
    match shelves.place() {
        None => FullMapPosition {
            first_row: 0,
            first_col: 0,
        },
        Some(place) => FullMapPosition {
            first_row: place.tile_top() as u64,
            first_col: place.tile_left() as u64,
        },
    }
}

// Writes the frame of the border of a map with this region, if it is wanted.
fn push_border_if_wanted<W: Sink>(
    place: u64,
    joining: Joining,
    position: FullMapPosition,
    region: Region,
    border: &Option<TileBorder>,
    block: &mut OutputBlock,
    out: &mut W,
)
    requires { IfSome border.now (λ border. All (λ count. count < 2 ^ 32) border.begun.items) }
    ensures { IsTextAppendedThroughBlock W.taken W.faults out.old block.old
        (frames_bytes (border_frame_if_wanted place joining position.first_row position.first_col region
        (option_map value_of_tile_border border.now))) out.new block.new }
{
    if let Some(border) = border {
        push_border_frame(out, block, place, joining, position, region, border);
    }
}

// Writes the frame of the measures of a map's patches, if they are wanted.
fn push_patches_if_wanted<W: Sink>(
    place: u64,
    question: &Question,
    measures: &Option<PatchMeasures>,
    block: &mut OutputBlock,
    out: &mut W,
)
    requires { IfSome measures.now (λ measures. IfSome measures.zones
        (λ zones. length zones.items ≡ length measures.patches.items)) }
    ensures { IsTextAppendedThroughBlock W.taken W.faults out.old block.old
        (frames_bytes (patches_frame_if_wanted place (question_as_value question.now)
        (option_map patch_measures_as_value measures.now))) out.new block.new }
{
    if let Some(found) = measures {
        push_patches_frame(
            out,
            block,
            place,
            question.joining,
            question.depth,
            &found.patches,
            &found.zones,
        );
    }
}

// Writes the frames for the question at index `place`. Allocates all memory before it writes the first byte.
fn answer<W: Sink>(
    alloc: Global,
    shelves: &RunShelves,
    place: u64,
    question: &Question,
    block: &mut OutputBlock,
    out: &mut W,
) -> Result<(), Memory>
    requires { question_has_unknown_map shelves.now.outer.names (question_as_value question.now)
        ≡ false }
    ensures ok { OnOk result (AreQuestionFramesAppended W.taken W.faults shelves.now place
        (question_as_value question.now) out.old block.old out.new block.new) }
    ensures err { OnErr result ((out.new ≡ out.old) × (block.new ≡ block.old)) }
{
    let wanted = question.wanted;
    let map = map_named(maps_without_halo(shelves), &question.map);
    let numbers = clump_with(alloc, map, question.joining)?;
    let border = border_if_wanted(alloc, wanted.border, map, &numbers)?;
    let measures = patch_measures_if_wanted(alloc, shelves, question, map, &numbers)?;
    // The numbers come first: only their frame needs memory, so a question that runs out of it has written nothing.
    push_patch_numbers_if_wanted(alloc, wanted.numbers, place, &numbers, block, out)?;
    let position = position_in_full_map(shelves);
    push_border_if_wanted(
        place,
        question.joining,
        position,
        map.region(),
        &border,
        block,
        out,
    );
    push_patches_if_wanted(place, question, &measures, block, out);
    Ok(())
}

/// Writes the frames for questions, in order.
///
/// # Errors
///
/// Returns [`AnswerWritingStop::Memory`] if memory runs out at a question, for which nothing is written, or
/// [`AnswerWritingStop::Write`] if the sink fails.
pub(crate) fn push_frames_for_all_questions<W: Sink>(
    alloc: Global,
    shelves: &RunShelves,
    questions: &[Question],
    block: &mut OutputBlock,
    out: &mut W,
) -> Result<(), AnswerWritingStop>
    requires { All (λ question. question_has_unknown_map shelves.now.outer.names
        (question_as_value question) ≡ false) questions.now }
    ensures ok { OnOk result (AreAllQuestionFramesAppended W.taken W.faults shelves.now
        (questions_as_values questions.now)
        out.old block.old out.new block.new) }
    ensures err { IfErr result (StopsAfterFirstQuestionFrames W.taken W.faults shelves.now
        (questions_as_values questions.now) out.old block.old out.new block.new) }
{
    for i in 0..questions.len() {
        match answer(alloc, shelves, i as u64, &questions[i], block, out) {
            Ok(()) => block.empty(out),
            Err(_) => return Err(AnswerWritingStop::Memory),
        }
        if block.has_failed() {
            return Err(AnswerWritingStop::Write);
        }
    }
    Ok(())
}
