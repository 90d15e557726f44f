ghost use Rattle.std.specs.Prelude.{◌≡◌, [], ◌∷◌, slice_index_or, OnOk, IfOk, true, false};
ghost use Rattle.msl_lex.specs.Printing.{text_of, spelling};
ghost use Rattle.msl_fun_print.specs.FunText.{fun_bits, operator, is_pair, is_simple, literal, first_of};
ghost use Rattle.msl_fun.specs.Checks.{names_of};
ghost use Rattle.msl_fun.specs.Shapes.{minus, opposite, binary, choice, binding, looping, calling};
ghost use Rattle.msl_fun_print.specs.Writing.{seen, with_text, with_bits, with_opening, with_operator, past_name, in_scope, in_first, with_expr, with_part, with_value, with_operand, with_prefixed, with_list, with_params, with_head, with_results};

use itoa::Buffer;
use msl_base::{Name, NoMemory};
use msl_fun::{BinOp, Expr, Fun};
use std::alloc::Global;

/// The text of a function in its canonical form. It may call the functions that are known. It fails for want of memory
/// alone.
pub fn fun_text(alloc: Global, known: &[Fun], f: &Fun) -> Result<Vec<u8>, NoMemory>
    ensures { IfOk result (λ t. t.items ≡ text_of (fun_bits known.now f.now)) }
{
    let mut w = Writer {
        text: Vec::new(alloc),
        scope: Vec::new(alloc),
        names: f.names.as_slice(),
    };
    w.head(f)?;
    w.results(known, f.results.as_slice())?;
    w.put(b";")?;
    Ok(w.text)
}

// The text so far, the variables in scope, and the names that are still to be bound.
#[derive(Drop)]
struct Writer<'a> {
    text: Vec<u8>,
    scope: Vec<&'a str>,
    names: &'a [Name],
}

impl<'a> Writer<'a> {
    fn put(&mut self, text: &[u8]) -> Result<(), NoMemory>
        ensures { OnOk result (seen self.new ≡ with_text text.now (seen self.old)) }
    {
        self.text.extend_from_slice(text)?;
        Ok(())
    }

    // A name and the parenthesis behind it.
    fn open(&mut self, name: &str) -> Result<(), NoMemory>
        ensures { OnOk result (seen self.new ≡ with_opening name.now (seen self.old)) }
    {
        self.put(name.as_bytes())?;
        self.put(b"(")
    }

    // The head of a function, up to its body.
    fn head(&mut self, f: &'a Fun) -> Result<(), NoMemory>
        ensures { OnOk result (seen self.new ≡ with_head f.now (seen self.old)) }
    {
        self.put(b"fun ")?;
        self.open(f.name.as_str())?;
        self.params(f.params.as_slice())?;
        self.put(b")")
    }

    // The parameters, which come into scope.
    fn params(&mut self, names: &'a [Name]) -> Result<(), NoMemory>
        ensures { OnOk result (seen self.new ≡ with_params names.now (seen self.old)) }
    {
        let Some((first, others)) = names.split_first() else {
            return Ok(());
        };
        self.param(first)?;
        for name in others {
            self.put(b", ")?;
            self.param(name)?;
        }
        Ok(())
    }

    fn param(&mut self, name: &'a Name) -> Result<(), NoMemory>
        ensures { OnOk result (seen self.new ≡ in_scope (name.now ∷ []) (with_text name.now (seen self.old))) }
    {
        self.put(name.as_str().as_bytes())?;
        self.enter(name.as_str())
    }

    // One result stands alone, and several in brackets.
    fn results(&mut self, known: &[Fun], results: &[Expr]) -> Result<(), NoMemory>
        ensures { OnOk result (seen self.new ≡ with_results known.now results.now (seen self.old)) }
    {
        if results.len() == 1 {
            return self.part(known, b" = ", &results[0]);
        }
        self.put(b" = [")?;
        self.list(known, results)?;
        self.put(b"]")
    }

    // A literal, which is not below 0.
    fn literal(&mut self, n: i64) -> Result<(), NoMemory>
        ensures { OnOk result (seen self.new ≡ with_bits (literal n ∷ []) (seen self.old)) }
    {
        let mut buffer = Buffer::new();
        self.put(buffer.format(n.max(0)).as_bytes())
    }

    // A variable in scope. One that isn't has no text, rather than a panic: no function of `Funs` has one.
    fn variable(&mut self, at: u32) -> Result<(), NoMemory>
        ensures { OnOk result (seen self.new ≡ with_text (slice_index_or (seen self.old).scope at []) (seen self.old)) }
    {
        let name = self.scope.get(at as usize).copied().unwrap_or("");
        self.put(name.as_bytes())
    }

    // An operator that stands between its operands.
    fn between(&mut self, op: BinOp) -> Result<(), NoMemory>
        ensures { OnOk result (seen self.new ≡ with_operator op (seen self.old)) }
    {
        self.put(b" ")?;
        self.put(operator(op).as_bytes())?;
        self.put(b" ")
    }

    // The next name that is bound. Past the last of them it is empty: a function of `Funs` has as many as it binds.
    fn next_name(&mut self) -> &'a str
        ensures name { result.now ≡ first_of (seen self.old).names }
        ensures rest { seen self.new ≡ past_name (seen self.old) }
    {
        match self.names.split_first() {
            Some((name, rest)) => {
                self.names = rest;
                name.as_str()
            }
            None => "",
        }
    }

    // A name comes into scope.
    fn enter(&mut self, name: &'a str) -> Result<(), NoMemory>
        ensures { OnOk result (seen self.new ≡ in_scope (name.now ∷ []) (seen self.old)) }
    {
        self.scope.push(name)?;
        Ok(())
    }

    // Only the first n names stay in scope.
    fn leave(&mut self, n: usize)
        ensures { seen self.new ≡ in_first n (seen self.old) }
    {
        self.scope.truncate(n);
    }

    #[cycle(text)]
    fn expr(&mut self, known: &[Fun], e: &Expr) -> Result<(), NoMemory>
        ensures { OnOk result (seen self.new ≡ with_expr known.now e.now (seen self.old)) }
    {
        match e {
            Expr::Lit(n) => self.literal(*n),
            Expr::Slot(at) => self.variable(*at),
            Expr::Neg(a) => self.prefixed(known, b"-", a.get()),
            Expr::Not(a) => self.prefixed(known, b"not ", a.get()),
            Expr::Bin(op, a, b) => self.binary(known, *op, a.get(), b.get()),
            Expr::If(c, a, b) => self.choice(known, c.get(), a.get(), b.get()),
            Expr::Let(a, b) => self.binding(known, a.get(), b.get()),
            Expr::Loop(n, s, e) => self.looping(known, n.get(), s.get(), e.get()),
            Expr::Call(f, args) => self.calling(known, *f, args.as_slice()),
        }
    }

    // An expression behind a text.
    #[cycle(text)]
    fn part(&mut self, known: &[Fun], before: &[u8], e: &Expr) -> Result<(), NoMemory>
        ensures { OnOk result (seen self.new ≡ with_part known.now before.now e.now (seen self.old)) }
    {
        self.put(before)?;
        self.expr(known, e)
    }

    // An operand, in parentheses where it needs them.
    #[cycle(text)]
    fn operand(&mut self, known: &[Fun], e: &Expr) -> Result<(), NoMemory>
        ensures { OnOk result (seen self.new ≡ with_operand known.now e.now (seen self.old)) }
    {
        if is_simple(e) {
            return self.expr(known, e);
        }
        self.part(known, b"(", e)?;
        self.put(b")")
    }

    // An operand behind its operator.
    #[cycle(text)]
    fn prefixed(&mut self, known: &[Fun], op: &[u8], a: &Expr) -> Result<(), NoMemory>
        ensures { OnOk result (seen self.new ≡ with_prefixed known.now op.now a.now (seen self.old)) }
    {
        self.put(op)?;
        self.operand(known, a)
    }

    #[cycle(text)]
    fn binary(&mut self, known: &[Fun], op: BinOp, a: &Expr, b: &Expr) -> Result<(), NoMemory>
        ensures { OnOk result (seen self.new ≡ with_expr known.now (binary op a.now b.now) (seen self.old)) }
    {
        if is_pair(op) {
            return self.pair(known, op, a, b);
        }
        self.operand(known, a)?;
        self.between(op)?;
        self.operand(known, b)
    }

    #[cycle(text)]
    fn pair(&mut self, known: &[Fun], op: BinOp, a: &Expr, b: &Expr) -> Result<(), NoMemory>
        requires { is_pair op ≡ true }
        ensures { OnOk result (seen self.new ≡ with_expr known.now (binary op a.now b.now) (seen self.old)) }
    {
        self.value(known, b"", operator(op), b"(", a)?;
        self.part(known, b", ", b)?;
        self.put(b")")
    }

    #[cycle(text)]
    fn choice(&mut self, known: &[Fun], c: &Expr, a: &Expr, b: &Expr) -> Result<(), NoMemory>
        ensures { OnOk result (seen self.new ≡ with_expr known.now (choice c.now a.now b.now) (seen self.old)) }
    {
        self.part(known, b"if ", c)?;
        self.part(known, b" then ", a)?;
        self.part(known, b" else ", b)
    }

    // A name between two texts, and an expression behind them.
    #[cycle(text)]
    fn value(
        &mut self,
        known: &[Fun],
        before: &[u8],
        name: &str,
        after: &[u8],
        e: &Expr,
    ) -> Result<(), NoMemory>
        ensures { OnOk result (seen self.new ≡ with_value known.now before.now name.now after.now e.now (seen self.old)) }
    {
        self.put(before)?;
        self.put(name.as_bytes())?;
        self.part(known, after, e)
    }

    #[cycle(text)]
    fn binding(&mut self, known: &[Fun], a: &Expr, b: &Expr) -> Result<(), NoMemory>
        ensures { OnOk result (seen self.new ≡ with_expr known.now (binding a.now b.now) (seen self.old)) }
    {
        let left = self.scope.len();
        let name = self.next_name();
        self.value(known, b"let ", name, b" = ", a)?;
        self.enter(name)?;
        self.part(known, b" in ", b)?;
        self.leave(left);
        Ok(())
    }

    #[cycle(text)]
    fn looping(&mut self, known: &[Fun], n: &Expr, s: &Expr, e: &Expr) -> Result<(), NoMemory>
        ensures { OnOk result (seen self.new ≡ with_expr known.now (looping n.now s.now e.now) (seen self.old)) }
    {
        let left = self.scope.len();
        let turn = self.next_name();
        self.value(known, b"loop ", turn, b" below ", n)?;
        let so_far = self.next_name();
        self.value(known, b", ", so_far, b" = ", s)?;
        self.enter(turn)?;
        self.enter(so_far)?;
        self.part(known, b" in ", e)?;
        self.leave(left);
        Ok(())
    }

    #[cycle(text)]
    fn calling(&mut self, known: &[Fun], f: u32, args: &[Expr]) -> Result<(), NoMemory>
        ensures { OnOk result (seen self.new ≡ with_expr known.now (calling f args.now) (seen self.old)) }
    {
        self.open(called(known, f))?;
        self.list(known, args)?;
        self.put(b")")
    }

    // Expressions with commas between them.
    #[cycle(text)]
    fn list(&mut self, known: &[Fun], es: &[Expr]) -> Result<(), NoMemory>
        ensures { OnOk result (seen self.new ≡ with_list known.now es.now (seen self.old)) }
    {
        let Some((first, others)) = es.split_first() else {
            return Ok(());
        };
        self.expr(known, first)?;
        for e in others {
            self.part(known, b", ", e)?;
        }
        Ok(())
    }
}

// The name of a function that is called. One that isn't known has none: a function of `Funs` calls only those before
// it.
fn called<'b>(known: &'b [Fun], f: u32) -> &'b str
    ensures { result.now ≡ slice_index_or (names_of known.now) f [] }
{
    match known.get(f as usize) {
        Some(f) => f.name.as_str(),
        None => "",
    }
}

fn is_pair(op: BinOp) -> bool
    ensures { result ≡ is_pair op }
{
    matches!(op, BinOp::Min | BinOp::Max)
}

// It needs no parentheses as an operand.
fn is_simple(e: &Expr) -> bool
    ensures { result ≡ is_simple e.now }
{
    match e {
        Expr::Lit(_) | Expr::Slot(_) | Expr::Call(..) => true,
        Expr::Bin(op, _, _) => is_pair(*op),
        _ => false,
    }
}

fn operator(op: BinOp) -> &'static str
    ensures { result.now ≡ spelling (operator op) }
{
    match op {
        BinOp::Add => "+",
        BinOp::Sub => "-",
        BinOp::Mul => "*",
        BinOp::Div => "/",
        BinOp::Rem => "%",
        BinOp::Eq => "==",
        BinOp::Ne => "!=",
        BinOp::Lt => "<",
        BinOp::Le => "<=",
        BinOp::Gt => ">",
        BinOp::Ge => ">=",
        BinOp::And => "and",
        BinOp::Or => "or",
        BinOp::Min => "min",
        BinOp::Max => "max",
    }
}
