//! Values of names as texts.
use kernel_ask::{StackView, ValueView};
use tests_rows::Sheet;

/// Writes the number of a number, the numbers of an array, or those of a stack from the bottom.
pub(crate) fn write_value(value: ValueView<'_>, sheet: &mut Sheet) {
    match value {
        ValueView::Number(number) => sheet.show(&number),
        ValueView::Array(numbers) => sheet.show(&numbers),
        ValueView::Stack(values) => write_stack(&values, sheet),
    }
}

/// Writes the numbers of a stack, the bottom first.
fn write_stack(values: &StackView<'_>, sheet: &mut Sheet) {
    sheet.write("stack[");
    let count = values.len();
    for i in 0..count {
        sheet.write(if i == 0 { "" } else { ", " });
        sheet.show(&values.get(count - 1 - i));
    }
    sheet.write("]");
}
