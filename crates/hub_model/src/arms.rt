//! Macros with an arm for each mode of a feed and for each style of a row. Each arm is straight code.

/// One arm for each `Mode` of a feed.
#[macro_export]
macro_rules! by_mode {
    ($mode:expr, normal: $normal:expr, longpoll: $longpoll:expr, continuous: $continuous:expr $(,)?) => {
        match $mode {
            $crate::Mode::Normal => $normal,
            $crate::Mode::Longpoll => $longpoll,
            $crate::Mode::Continuous => $continuous,
        }
    };
}

/// One arm for each `Style` of a row.
#[macro_export]
macro_rules! by_style {
    ($style:expr, main_only: $main_only:expr, all_docs: $all_docs:expr $(,)?) => {
        match $style {
            $crate::Style::MainOnly => $main_only,
            $crate::Style::AllDocs => $all_docs,
        }
    };
}
