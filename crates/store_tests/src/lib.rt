//! Tables, their texts, their files and the messages in them, tried from outside: each test uses public calls alone.
#![tactic(auto)]

#[cfg(test)]
mod disk_model_tests;
#[cfg(test)]
mod fault_counts_tests;
#[cfg(test)]
mod rebuilding;
#[cfg(test)]
mod redo_log_tests;
#[cfg(test)]
mod row_codec_tests;
#[cfg(test)]
mod row_store_tests;
#[cfg(test)]
mod shredding;
#[cfg(test)]
mod stores;
#[cfg(test)]
mod table_tests;
