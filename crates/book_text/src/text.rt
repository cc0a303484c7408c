// The text so far: what is written into lent bytes, one word after the other.
ghost use Rattle.std.specs.Prelude.{◌≤◌, length};

use itoa::Buffer;
use orders::{Bytes, OrderFields};
use tree::Plan;

// Two bytes for the answer to each of at most 21,845 orders.
const MOST_ANSWER_BYTES: usize = 43690;

// A text in lent bytes: those before the place are written.
#[derive(Drop)]
pub(crate) struct Text<'a> {
    pub(crate) bytes: &'a mut [u8],
    pub(crate) place: usize,
    ghost within: { place ≤ length bytes.now },
}

impl Text<'_> {
    ghost use Rattle.std.specs.Prelude.{◌+◌, ◌*◌, ◌/◌, ◌%◌, ◌≤◌, length};
    ghost use Rattle.tree.specs.Tree.{nothing};
    ghost use Rattle.lists.specs.Lists.{orders_of, list_answers};
    ghost use Rattle.book_text.specs.BookText.{decimal, spaced, order_lines, book_text};
    ghost use Rattle.book_text.specs.Writing.{room, Appended, start_printed, line_printed, order_printed, Answered};

    // Writes bytes.
    #[tactic(auto, using(std::proofs::lemmas::Slice::overwrites))]
    fn append(&mut self, bytes: &[u8])
        requires { length bytes.now ≤ room self.old }
        ensures { Appended self.old bytes.now self.new }
    {
        let end = self.place + bytes.len();
        self.bytes[self.place..end].copy_from_slice(bytes);
        self.place = end;
    }

    // Writes a number in decimal digits. Most have one, which is written as it is: `itoa` fills a buffer for each number, and the
    // digits are copied from there.
    #[tactic(auto, using(crate::proofs::Decimal::decimal_printed))]
    fn append_decimal(&mut self, number: u64)
        requires { length (decimal number) ≤ room self.old }
        ensures { Appended self.old (decimal number) self.new }
    {
        if number < 10 {
            self.append(&[b'0' + number as u8]);
        } else {
            let mut digits = Buffer::new();
            self.append(digits.format(number).as_bytes());
        }
    }

    // Writes a number and a space.
    fn append_spaced(&mut self, number: u64)
        requires { length (spaced (decimal number)) ≤ room self.old }
        ensures { Appended self.old (spaced (decimal number)) self.new }
    {
        self.append_decimal(number);
        self.append(b" ");
    }

    // Writes the start of a line that was opened, and `-` for every other order. Kind and result are numbers, as printed.
    #[tactic(auto, using(std::proofs::lemmas::Bool::Decides::nat_tests), unfolding(crate::specs::Writing::start_printed))]
    fn append_start(&mut self, kind: u64, result_field: u64, start: u64)
        requires { length (start_printed kind result_field start) ≤ room self.old }
        ensures { Appended self.old (start_printed kind result_field start) self.new }
    {
        if kind == 0 && result_field == 0 {
            self.append_decimal(start);
        } else {
            self.append(b"-");
        }
    }

    // Writes the line of an order.
    #[tactic(auto, using(crate::proofs::Appending::lengths), unfolding(crate::specs::Writing::line_printed, crate::specs::BookText::text_line))]
    fn append_line(&mut self, number: u64, fields: OrderFields, result_field: u64, start: u64)
        requires { length (line_printed number fields result_field start) ≤ room self.old }
        ensures { Appended self.old (line_printed number fields result_field start) self.new }
    {
        self.append_spaced(number);
        self.append_spaced(fields.kind);
        self.append_spaced(fields.line);
        self.append_spaced(fields.period.0 as u64);
        self.append_spaced(result_field);
        self.append_start(fields.kind, result_field, start);
        self.append(b"\n");
    }

    // Writes the line of an order, given by its three bytes and the two bytes of its answer: result 4 bits, start 12 bits.
    fn append_order(&mut self, number: u64, order: [u8; 3], answer: [u8; 2])
        requires { length (order_printed number order answer) ≤ room self.old }
        ensures { Appended self.old (order_printed number order answer) self.new }
    {
        let [first, second, third] = order;
        let [high, low] = answer;
        let fields = orders::fields(Bytes(first, second, third));
        let result = (high / 16) as u64;
        let start = (high % 16) as u64 * 256 + low as u64;
        self.append_line(number, fields, result, start);
    }

    // Writes the lines of all orders, whose answers are given by index: of a `zip` the library has no law for one turn.
    fn append_orders(&mut self, orders: &[u8], answers: &[u8])
        requires has_room { length (order_lines 1 (orders_of orders.now) (list_answers nothing (orders_of orders.now))) ≤ room self.old }
        requires answered { Answered orders.now answers.now }
        ensures { Appended self.old (order_lines 1 (orders_of orders.now) (list_answers nothing (orders_of orders.now))) self.new }
    {
        let (order_bytes, _) = orders.as_chunks::<3>();
        let (answer_bytes, _) = answers.as_chunks::<2>();
        for (k, order) in order_bytes.iter().enumerate() {
            self.append_order(k as u64 + 1, *order, answer_bytes[k]);
        }
    }

    // Writes what `book` prints for its input.
    pub(crate) fn append_book(&mut self, input: &[u8])
        requires { length (book_text input.now) ≤ room self.old }
        ensures { Appended self.old (book_text input.now) self.new }
    {
        self.append(b"order kind line period result start\n");
        let mut answers = [0; MOST_ANSWER_BYTES];
        let ran = lists::run_list(Plan { rows: [0; 1408] }, input, &mut answers);
        match ran.answer {
            Ok(()) => self.append_orders(input, &answers),
            Err(_) => self.append(b"list 7\n"),
        }
    }
}
