// Each kind of result, from 0 to 8, with a value of each form.

/// Calls of a kind, and what each gives: nothing where the value is of that kind, and else a fault. A list without items is
/// rows of any kind.
pub static LINES: &str = r#"do 1 call 0 nothing root :0 ->
do 1 call 1 nothing root :0 -> !11@1#1
do 1 call 2 nothing root :0 -> !11@1#1
do 1 call 3 nothing root :0 -> !11@1#1
do 1 call 4 nothing root :0 -> !11@1#1
do 1 call 5 nothing root :0 -> !11@1#1
do 1 call 6 nothing root :0 -> !11@1#1
do 1 call 7 nothing root :0 -> !11@1#1
do 1 call 8 nothing root :0 -> !11@1#1
do 1 call 0 number root :0 -> !11@1#1
do 1 call 1 number root :0 ->
do 1 call 2 number root :0 -> !11@1#1
do 1 call 3 number root :0 -> !11@1#1
do 1 call 4 number root :0 -> !11@1#1
do 1 call 5 number root :0 -> !11@1#1
do 1 call 6 number root :0 -> !11@1#1
do 1 call 7 number root :0 -> !11@1#1
do 1 call 8 number root :0 -> !11@1#1
do 1 call 0 truth root :0 -> !11@1#1
do 1 call 1 truth root :0 -> !11@1#1
do 1 call 2 truth root :0 ->
do 1 call 3 truth root :0 -> !11@1#1
do 1 call 4 truth root :0 -> !11@1#1
do 1 call 5 truth root :0 -> !11@1#1
do 1 call 6 truth root :0 -> !11@1#1
do 1 call 7 truth root :0 -> !11@1#1
do 1 call 8 truth root :0 -> !11@1#1
do 1 call 0 word root :0 -> !11@1#1
do 1 call 1 word root :0 -> !11@1#1
do 1 call 2 word root :0 -> !11@1#1
do 1 call 3 word root :0 ->
do 1 call 4 word root :0 -> !11@1#1
do 1 call 5 word root :0 -> !11@1#1
do 1 call 6 word root :0 -> !11@1#1
do 1 call 7 word root :0 -> !11@1#1
do 1 call 8 word root :0 -> !11@1#1
do 1 call 0 first root :0 -> !11@1#1
do 1 call 1 first root :0 -> !11@1#1
do 1 call 2 first root :0 -> !11@1#1
do 1 call 3 first root :0 -> !11@1#1
do 1 call 4 first root :0 ->
do 1 call 5 first root :0 -> !11@1#1
do 1 call 6 first root :0 -> !11@1#1
do 1 call 7 first root :0 -> !11@1#1
do 1 call 8 first root :0 -> !11@1#1
do 1 call 0 numbers root :0 -> !11@1#1
do 1 call 1 numbers root :0 -> !11@1#1
do 1 call 2 numbers root :0 -> !11@1#1
do 1 call 3 numbers root :0 -> !11@1#1
do 1 call 4 numbers root :0 -> !11@1#1
do 1 call 5 numbers root :0 ->
do 1 call 6 numbers root :0 -> !11@1#1
do 1 call 7 numbers root :0 -> !11@1#1
do 1 call 8 numbers root :0 -> !11@1#1
do 1 call 0 truths root :0 -> !11@1#1
do 1 call 1 truths root :0 -> !11@1#1
do 1 call 2 truths root :0 -> !11@1#1
do 1 call 3 truths root :0 -> !11@1#1
do 1 call 4 truths root :0 -> !11@1#1
do 1 call 5 truths root :0 -> !11@1#1
do 1 call 6 truths root :0 ->
do 1 call 7 truths root :0 -> !11@1#1
do 1 call 8 truths root :0 -> !11@1#1
do 1 call 0 words root :0 -> !11@1#1
do 1 call 1 words root :0 -> !11@1#1
do 1 call 2 words root :0 -> !11@1#1
do 1 call 3 words root :0 -> !11@1#1
do 1 call 4 words root :0 -> !11@1#1
do 1 call 5 words root :0 -> !11@1#1
do 1 call 6 words root :0 -> !11@1#1
do 1 call 7 words root :0 ->
do 1 call 8 words root :0 -> !11@1#1
do 1 call 0 files root :0 -> !11@1#1
do 1 call 1 files root :0 -> !11@1#1
do 1 call 2 files root :0 -> !11@1#1
do 1 call 3 files root :0 -> !11@1#1
do 1 call 4 files root :0 -> !11@1#1
do 1 call 5 files root :0 -> !11@1#1
do 1 call 6 files root :0 -> !11@1#1
do 1 call 7 files root :0 -> !11@1#1
do 1 call 8 files root :0 ->
do 1 call 0 none root :0 -> !11@1#1
do 1 call 1 none root :0 -> !11@1#1
do 1 call 2 none root :0 -> !11@1#1
do 1 call 3 none root :0 -> !11@1#1
do 1 call 4 none root :0 -> !11@1#1
do 1 call 5 none root :0 ->
do 1 call 6 none root :0 ->
do 1 call 7 none root :0 ->
do 1 call 8 none root :0 ->
do 1 call 0 lists root :0 -> !11@1#1
do 1 call 1 lists root :0 -> !11@1#1
do 1 call 2 lists root :0 -> !11@1#1
do 1 call 3 lists root :0 -> !11@1#1
do 1 call 4 lists root :0 -> !11@1#1
do 1 call 5 lists root :0 -> !11@1#1
do 1 call 6 lists root :0 -> !11@1#1
do 1 call 7 lists root :0 -> !11@1#1
do 1 call 8 lists root :0 -> !11@1#1"#;
