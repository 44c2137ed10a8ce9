//! A short printed form of trees, for the tests.

use lua_ast::{
    AstText, AstTexts, BinOp, Chunk, Field, Fields, Ids, Literal, LogicOp, Node, NodeId, UnOp,
};
use std::alloc::{AllocError, Global};

/// The printed forms of the nodes so far.
#[derive(Drop)]
struct Forms {
    forms: Vec<Vec<u8>>,
}

fn put(out: &mut Vec<u8>, text: &str) -> Result<(), AllocError> {
    out.extend_from_slice(text.as_bytes())?;
    Ok(())
}

fn put_text(out: &mut Vec<u8>, text: &AstText) -> Result<(), AllocError> {
    out.extend_from_slice(text.as_slice())?;
    Ok(())
}

fn put_texts(out: &mut Vec<u8>, texts: &AstTexts) -> Result<(), AllocError> {
    let mut first = true;
    for text in texts.as_slice() {
        if !first {
            put(out, ",")?;
        }
        first = false;
        put_text(out, text)?;
    }
    Ok(())
}

fn symbol(op: BinOp) -> &'static str {
    match op {
        BinOp::Add => "+",
        BinOp::Sub => "-",
        BinOp::Mul => "*",
        BinOp::Div => "/",
        BinOp::Mod => "%",
        BinOp::Pow => "^",
        BinOp::Concat => "..",
        BinOp::Eq => "==",
        BinOp::Ne => "~=",
        BinOp::Less => "<",
        BinOp::LessEq => "<=",
        BinOp::Greater => ">",
        BinOp::GreaterEq => ">=",
    }
}

impl Forms {
    fn put_node(&self, out: &mut Vec<u8>, id: NodeId) -> Result<(), AllocError> {
        if let Some(form) = self.forms.get(id.index()) {
            out.extend_from_slice(form.as_slice())?;
        }
        Ok(())
    }

    fn put_nodes(&self, out: &mut Vec<u8>, ids: &Ids, between: &str) -> Result<(), AllocError> {
        let mut first = true;
        for id in ids.as_slice() {
            if !first {
                put(out, between)?;
            }
            first = false;
            self.put_node(out, *id)?;
        }
        Ok(())
    }

    fn put_literal(
        &self,
        out: &mut Vec<u8>,
        value: &Literal,
        alloc: Global,
    ) -> Result<(), AllocError> {
        match value {
            Literal::Nil => put(out, "nil"),
            Literal::Bool(true) => put(out, "true"),
            Literal::Bool(false) => put(out, "false"),
            Literal::Int(number) => {
                let text = format!(in alloc; "{}", *number)?;
                put(out, text.as_str())
            }
            Literal::Text(text) => {
                put(out, "'")?;
                put_text(out, text)?;
                put(out, "'")
            }
        }
    }

    fn put_fields(&self, out: &mut Vec<u8>, fields: &Fields) -> Result<(), AllocError> {
        for field in fields.as_slice() {
            match field {
                Field::Item { value } => self.put_node(out, *value)?,
                Field::Named { name, value } => {
                    put_text(out, name)?;
                    put(out, "=")?;
                    self.put_node(out, *value)?;
                }
                Field::Keyed { key, value } => {
                    put(out, "[")?;
                    self.put_node(out, *key)?;
                    put(out, "]=")?;
                    self.put_node(out, *value)?;
                }
            }
            put(out, ",")?;
        }
        Ok(())
    }

    fn put_pair(
        &self,
        out: &mut Vec<u8>,
        left: NodeId,
        between: &str,
        right: NodeId,
    ) -> Result<(), AllocError> {
        put(out, "(")?;
        self.put_node(out, left)?;
        put(out, between)?;
        self.put_node(out, right)?;
        put(out, ")")
    }

    fn put_unary(&self, out: &mut Vec<u8>, op: UnOp, operand: NodeId) -> Result<(), AllocError> {
        match op {
            UnOp::Neg => put(out, "(-")?,
            UnOp::Not => put(out, "(not ")?,
            UnOp::Len => put(out, "(#")?,
        }
        self.put_node(out, operand)?;
        put(out, ")")
    }

    fn put_call(
        &self,
        out: &mut Vec<u8>,
        function: NodeId,
        name: Option<&AstText>,
        args: &Ids,
    ) -> Result<(), AllocError> {
        self.put_node(out, function)?;
        if let Some(name) = name {
            put(out, ":")?;
            put_text(out, name)?;
        }
        put(out, "(")?;
        self.put_nodes(out, args, ",")?;
        put(out, ")")
    }

    fn put_function(
        &self,
        out: &mut Vec<u8>,
        params: &AstTexts,
        vararg: bool,
        block: NodeId,
    ) -> Result<(), AllocError> {
        put(out, "fn(")?;
        put_texts(out, params)?;
        if vararg {
            put(out, "...")?;
        }
        put(out, ")")?;
        self.put_node(out, block)
    }

    fn put_expression(
        &self,
        out: &mut Vec<u8>,
        node: &Node,
        alloc: Global,
    ) -> Result<(), AllocError> {
        match node {
            Node::Const { value } => self.put_literal(out, value, alloc),
            Node::Vararg => put(out, "..."),
            Node::Function {
                params,
                vararg,
                block,
            } => self.put_function(out, params, *vararg, *block),
            Node::Name { text } => put_text(out, text),
            Node::Index { object, key } => {
                self.put_node(out, *object)?;
                put(out, "[")?;
                self.put_node(out, *key)?;
                put(out, "]")
            }
            Node::Call { function, args } => self.put_call(out, *function, None, args),
            Node::Method { object, name, args } => self.put_call(out, *object, Some(name), args),
            Node::Binary { op, left, right } => self.put_pair(out, *left, symbol(*op), *right),
            Node::Logic { op, left, right } => match *op {
                LogicOp::And => self.put_pair(out, *left, " and ", *right),
                LogicOp::Or => self.put_pair(out, *left, " or ", *right),
            },
            Node::Unary { op, operand } => self.put_unary(out, *op, *operand),
            Node::Paren { inner } => {
                put(out, "<")?;
                self.put_node(out, *inner)?;
                put(out, ">")
            }
            Node::Table { fields } => {
                put(out, "{")?;
                self.put_fields(out, fields)?;
                put(out, "}")
            }
            _ => Ok(()),
        }
    }

    fn put_statement(&self, out: &mut Vec<u8>, node: &Node) -> Result<(), AllocError> {
        match node {
            Node::Block { stats } => {
                put(out, "{")?;
                self.put_nodes(out, stats, " ")?;
                put(out, "}")
            }
            Node::Local { names, exps } => {
                put(out, "local ")?;
                put_texts(out, names)?;
                put(out, "=")?;
                self.put_nodes(out, exps, ",")
            }
            Node::Assign { targets, exps } => {
                self.put_nodes(out, targets, ",")?;
                put(out, "=")?;
                self.put_nodes(out, exps, ",")
            }
            Node::CallStat { call } => {
                put(out, "call ")?;
                self.put_node(out, *call)
            }
            Node::Return { exps } => {
                put(out, "return ")?;
                self.put_nodes(out, exps, ",")
            }
            Node::Break => put(out, "break"),
            Node::Goto { label } => {
                put(out, "goto ")?;
                put_text(out, label)
            }
            Node::Label { label } => {
                put(out, "::")?;
                put_text(out, label)
            }
            _ => Ok(()),
        }
    }

    fn put_compound(&self, out: &mut Vec<u8>, node: &Node) -> Result<(), AllocError> {
        match node {
            Node::Do { block } => {
                put(out, "do")?;
                self.put_node(out, *block)
            }
            Node::While { test, block } => {
                put(out, "while ")?;
                self.put_node(out, *test)?;
                self.put_node(out, *block)
            }
            Node::Repeat { block, test } => {
                put(out, "repeat")?;
                self.put_node(out, *block)?;
                self.put_node(out, *test)
            }
            Node::If {
                tests,
                blocks,
                otherwise,
            } => {
                put(out, "if ")?;
                self.put_nodes(out, tests, ",")?;
                self.put_nodes(out, blocks, "")?;
                if let Some(block) = otherwise {
                    put(out, "else")?;
                    self.put_node(out, *block)?;
                }
                Ok(())
            }
            Node::LocalFunction { name, function } => {
                put(out, "local fn ")?;
                put_text(out, name)?;
                put(out, "=")?;
                self.put_node(out, *function)
            }
            _ => Ok(()),
        }
    }

    fn put_for(&self, out: &mut Vec<u8>, node: &Node) -> Result<(), AllocError> {
        match node {
            Node::NumFor {
                name,
                first,
                limit,
                step,
                block,
            } => {
                put(out, "for ")?;
                put_text(out, name)?;
                put(out, "=")?;
                self.put_node(out, *first)?;
                put(out, ",")?;
                self.put_node(out, *limit)?;
                if let Some(step) = step {
                    put(out, ",")?;
                    self.put_node(out, *step)?;
                }
                self.put_node(out, *block)
            }
            Node::GenFor { names, exps, block } => {
                put(out, "for ")?;
                put_texts(out, names)?;
                put(out, " in ")?;
                self.put_nodes(out, exps, ",")?;
                self.put_node(out, *block)
            }
            _ => Ok(()),
        }
    }
}

/// The printed form of a whole text.
pub fn printed(alloc: Global, chunk: &Chunk) -> Result<Vec<u8>, AllocError> {
    let mut forms = Forms {
        forms: Vec::new(alloc),
    };
    for number in 0..chunk.len() {
        let mut form = Vec::new(alloc);
        let node = chunk.node(NodeId::new(number as u32));
        forms.put_expression(&mut form, node, alloc)?;
        forms.put_statement(&mut form, node)?;
        forms.put_compound(&mut form, node)?;
        forms.put_for(&mut form, node)?;
        forms.forms.push(form)?;
    }
    let mut out = Vec::new(alloc);
    forms.put_node(&mut out, chunk.root())?;
    Ok(out)
}
