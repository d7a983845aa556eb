//! Rows of limits. Definitions cite these constants, so no contract has their numbers: the rows have.
use cell_tree::NODE_LIMIT;
use cells_program::INPUT_LIMIT;
use janus_frames::CALL_LIMIT;
use janus_meaning::limit::{
    ARRAY_LIMIT, FRAME_LIMIT, LIVE_STACK_LIMIT, NAME_LIMIT, PARAMETER_LIMIT, PROCEDURE_LIMIT,
    STEP_LIMIT, VALUE_LIMIT,
};
use janus_row::limit::RESULT_LIMIT;
use kernel_ask::{COMM_LIMIT, SHOWN_VALUES};
use kernel_core::{MINUTES_LIMIT, QUEUE_LIMIT, STEPS_OF_A_SLICE};
use tests_rows::Sheet;

/// Writes the number of the limit of this name.
pub(crate) fn answer(name: &str, sheet: &mut Sheet) {
    sheet.show(&limit_of(name));
}

/// The limit of this name.
fn limit_of(name: &str) -> u64 {
    match name {
        "frames" => u64::from(FRAME_LIMIT),
        "steps" => STEP_LIMIT,
        "array" => u64::from(ARRAY_LIMIT),
        "slice" => STEPS_OF_A_SLICE,
        "results" => u64::from(RESULT_LIMIT),
        _ => count_of(name) as u64,
    }
}

/// The limit of this name, of those that are counts of what is kept.
fn count_of(name: &str) -> usize {
    match name {
        "names" => NAME_LIMIT,
        "procedures" => PROCEDURE_LIMIT,
        "parameters" => PARAMETER_LIMIT,
        "stacks" => LIVE_STACK_LIMIT,
        "values" => VALUE_LIMIT,
        "calls" => CALL_LIMIT,
        "nodes" => NODE_LIMIT,
        "queue" => QUEUE_LIMIT,
        "minutes" => MINUTES_LIMIT,
        "comms" => COMM_LIMIT,
        "shown" => SHOWN_VALUES,
        "input" => INPUT_LIMIT,
        _ => 0,
    }
}
