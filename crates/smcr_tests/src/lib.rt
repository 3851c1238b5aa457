//! The tests of the crates, a file a crate: the public calls of each, over worked rows.
#![tactic(auto)]

#[cfg(test)]
mod alert_board_tests;
#[cfg(test)]
mod cdc_ring_tests;
#[cfg(test)]
mod cdc_wire_tests;
#[cfg(test)]
mod clc_handshake_tests;
#[cfg(test)]
mod clc_wire_tests;
#[cfg(test)]
mod element_ledger_tests;
#[cfg(test)]
mod failover_tests;
#[cfg(test)]
mod field_cases_fields_tests;
#[cfg(test)]
mod field_cases_table_tests;
#[cfg(test)]
mod key_book_tests;
#[cfg(test)]
mod llc_flows_tests;
#[cfg(test)]
mod llc_wire_tests;
#[cfg(test)]
mod pipe_model_tests;
#[cfg(test)]
mod rc_link_tests;
#[cfg(test)]
mod rkey_table_tests;
#[cfg(test)]
mod scene_text_tests;
#[cfg(test)]
mod side_core_tests;
#[cfg(test)]
mod smc_num_tests;
#[cfg(test)]
mod smcr_calls_print_tests;
#[cfg(test)]
mod smcr_calls_tests;
#[cfg(test)]
mod smcr_calls_trace_tests;
#[cfg(test)]
mod smcr_words_tests;
#[cfg(test)]
mod tcp_pipe_tests;
#[cfg(test)]
mod turn_cell_tests;
#[cfg(test)]
mod wait_set_tests;
#[cfg(test)]
mod wire_trace_kinds_tests;
#[cfg(test)]
mod wire_trace_tests;
#[cfg(test)]
mod world_core_tests;
